//! Initial values: a walk over initialisers.

ghost use Rattle.std.specs.Prelude.{◌≡◌, IfOk, map};
ghost use Rattle.std.specs.Option.{option_map};
ghost use Rattle.nm_base.specs.declared.refusal.Refusal.TheVariants.{BadType};
ghost use Rattle.nesc_core.specs.View.{expr_of as core_expr_of, type_of};
ghost use Rattle.nesc_tree.specs.View.{expr_of};
ghost use Rattle.nesc_types.specs.Rule.{or_refuse};
ghost use Rattle.elab_meaning.specs.Answers.{Follows, Gives};
ghost use Rattle.elab_meaning.specs.View.{env_of, found_of, state_of, struct_of};
ghost use Rattle.body_meaning.specs.Initial as spec;
ghost use Rattle.body_meaning.specs.Stmts as stmts;
ghost use Rattle.body_meaning.specs.Tree.{one};
ghost use Rattle.body_meaning.specs.View.{init_of, inits};
ghost use Rattle.elab_pieces.specs.Ways.{aim_of, root_of};
ghost use Rattle.elab_locals.specs.Parts as parts;
ghost use Rattle.elab_locals.specs.Walk.{AreSteps, initial_at, initials_at, one_initial_at};

use crate::lists::add_steps;
use elab_copies::stored;
use elab_exprs::{Told, found};
use elab_meaning::{Found, Work};
use elab_pieces::{Part, Root, part_of, target};
use elab_values::bad_type;
use nesc_core::{CoreExpr, CoreType};
use nesc_tree::{Expr, Init};
use nesc_types::pos_of;
use nm_base::{Fault, List, NoMemory, Pos};
use std::alloc::Global;

// ---- one initialiser

fn init_pos(at: Pos, i: &Init) -> Pos
    ensures { result ≡ spec.init_pos at (init_of i.now) }
{
    match i {
        Init::One(e) => pos_of(e),
        Init::Many(_) => at,
    }
}

// The part that the initialiser with this number in braces is for.
fn aimed(alloc: Global, work: &Work, at: Pos, p: &Part, k: u32, i: &Init) -> Result<Part, Fault>
    ensures { Follows aim_of result (or_refuse (BadType (spec.init_pos at (init_of i.now))) (spec.part_of (map struct_of work.now.structs.items) (aim_of p.now) k (type_of p.now.ty))) }
{
    match part_of(alloc, work.structs.as_slice(), p, k)? {
        Some(part) => Ok(part),
        None => bad_type(init_pos(at, i)),
    }
}

// What is done.
fn steps_of(alloc: Global, f: Found) -> Result<Vec<CoreExpr>, NoMemory>
    ensures { IfOk result (λ v. map core_expr_of v.items ≡ spec.steps_of (found_of f)) }
{
    match f {
        Found::Place(_, _, _, _) => Ok(Vec::new(alloc)),
        Found::Value(v) => Ok(vec![in alloc; v.expr]?),
        Found::Copy(steps, _, _) => Ok(steps),
    }
}

// A part gets a value.
fn stored_steps(
    alloc: Global,
    work: &mut Work,
    at: Pos,
    at_value: Pos,
    p: Part,
    f: Found,
) -> Result<Vec<CoreExpr>, Fault>
    ensures { Gives (λ v. map core_expr_of v.items) result (state_of work.new) (parts.stored_steps at at_value (aim_of p) (found_of f) (state_of work.old)) }
{
    let to = target(alloc, p)?;
    let done = stored(alloc, work, None, at, at_value, to, f)?;
    Ok(steps_of(alloc, done)?)
}

// An initialiser without braces.
fn plain_initial(
    alloc: Global,
    told: &Told,
    work: &mut Work,
    at: Pos,
    p: Part,
    e: &Expr,
) -> Result<Vec<CoreExpr>, Fault>
    ensures { Gives (λ v. map core_expr_of v.items) result (state_of work.new) (spec.initial (env_of told.now.env) told.now.values at (aim_of p) (one (expr_of e.now)) (state_of work.old)) }
{
    let f = found(alloc, told, work, e)?;
    stored_steps(alloc, work, at, pos_of(e), p, f)
}

// ---- initialisers in braces

#[cycle(initials)]
#[tactic(auto, unfolding(crate::specs::Walk::AreSteps, crate::specs::Walk::initial_at, crate::specs::Walk::initials_at))]
fn initial_of(
    alloc: Global,
    told: &Told,
    work: &mut Work,
    i: &Init,
    at: Pos,
    p: Part,
) -> Result<Vec<CoreExpr>, Fault>
    ensures { AreSteps result work.new (initial_at told.now at (aim_of p) (init_of i.now) work.old) }
{
    match i {
        Init::One(e) => plain_initial(alloc, told, work, at, p, e),
        Init::Many(list) => initials(alloc, told, work, list, at, &p),
    }
}

// Initialisers in braces, each for a part.
#[cycle(initials)]
#[tactic(auto, using(crate::proofs::Loops::init_lists), unfolding(crate::specs::Walk::AreSteps, crate::specs::Walk::initials_at, crate::specs::Walk::one_initial_at))]
fn initials(
    alloc: Global,
    told: &Told,
    work: &mut Work,
    list: &List<Init>,
    at: Pos,
    p: &Part,
) -> Result<Vec<CoreExpr>, Fault>
    ensures { AreSteps result work.new (initials_at told.now at (aim_of p.now) (inits (map init_of list.now)) work.old) }
{
    let mut steps = Vec::new(alloc);
    let mut k: u32 = 0;
    for i in list.as_slice() {
        let more = one_initial(alloc, told, work, i, at, p, k)?;
        add_steps(&mut steps, more)?;
        let Some(next) = k.checked_add(1) else {
            return Err(Fault::NoMemory);
        };
        k = next;
    }
    Ok(steps)
}

// One of the initialisers in braces.
#[cycle(initials)]
#[tactic(auto, unfolding(crate::specs::Walk::AreSteps, crate::specs::Walk::initial_at, crate::specs::Walk::one_initial_at))]
fn one_initial(
    alloc: Global,
    told: &Told,
    work: &mut Work,
    i: &Init,
    at: Pos,
    p: &Part,
    k: u32,
) -> Result<Vec<CoreExpr>, Fault>
    ensures { AreSteps result work.new (one_initial_at told.now at (aim_of p.now) k (init_of i.now) work.old) }
{
    let part = aimed(alloc, work, at, p, k, i)?;
    initial_of(alloc, told, work, i, at, part)
}

// The assignments that give a part its initial value, at the variable's name.
#[tactic(auto, unfolding(crate::specs::Walk::AreSteps, crate::specs::Walk::initial_at))]
fn initial(
    alloc: Global,
    told: &Told,
    work: &mut Work,
    at: Pos,
    p: Part,
    i: &Init,
) -> Result<Vec<CoreExpr>, Fault>
    ensures { Gives (λ v. map core_expr_of v.items) result (state_of work.new) (spec.initial (env_of told.now.env) told.now.values at (aim_of p) (init_of i.now) (state_of work.old)) }
{
    initial_of(alloc, told, work, i, at, p)
}

/// The assignments that give a local or a variable of a module its initial value, at its name: none where it has none.
pub fn initials_of(
    alloc: Global,
    told: &Told,
    work: &mut Work,
    at: Pos,
    root: Root,
    ty: CoreType,
    init: &Option<Init>,
) -> Result<Vec<CoreExpr>, Fault>
    ensures { Gives (λ v. map core_expr_of v.items) result (state_of work.new) (stmts.initials_of (env_of told.now.env) told.now.values at (root_of root) (type_of ty) (option_map init_of init.now) (state_of work.old)) }
{
    match init {
        None => Ok(Vec::new(alloc)),
        Some(i) => {
            let steps = Vec::new(alloc);
            initial(alloc, told, work, at, Part { root, steps, ty }, i)
        }
    }
}
