//! Locals: their types, their places among the locals and the names in force, and their initial values.

ghost use Rattle.std.specs.Prelude.{◌≡◌, map, Ok};
ghost use Rattle.std.specs.Option.{option_map};
ghost use Rattle.nesc_core.specs.View.{stmt_of, type_of};
ghost use Rattle.nesc_tree.specs.View.{exprs_of};
ghost use Rattle.elab_meaning.specs.Answers.{Follows, Gives};
ghost use Rattle.elab_meaning.specs.Convert as convert;
ghost use Rattle.elab_meaning.specs.View.{based_of, env_of, state_of, struct_of};
ghost use Rattle.body_meaning.specs.Stmts as spec;
ghost use Rattle.body_meaning.specs.Tree.{Variable};
ghost use Rattle.body_meaning.specs.View.{init_of, variable_of};
ghost use Rattle.elab_locals.specs.Parts as parts;

use crate::initials::initials_of;
use crate::lists::{add_stmts, cleared};
use elab_exprs::{Told, lengths};
use elab_forms::{is_const_at, resolved, starred};
use elab_meaning::{Based, Meaning, Work};
use elab_pieces::Root;
use elab_types::new_name;
use elab_values::{copied, size};
use nesc_core::{CoreStmt, CoreType};
use nesc_tree::{Expr, Init, Variable};
use nm_base::{Fault, List, Name, NoMemory, Pos};
use std::alloc::Global;

/// The type that stars and dimensions make of the type before them.
pub(crate) fn shaped(
    alloc: Global,
    told: &Told,
    work: &mut Work,
    at: Pos,
    b: &Based,
    stars: u8,
    dims: &List<Expr>,
) -> Result<CoreType, Fault>
    ensures { Gives type_of result (state_of work.new) (parts.shaped (env_of told.now.env) told.now.values at (based_of b.now) stars (exprs_of dims.now) (state_of work.old)) }
{
    let part = starred(alloc, work, at, stars, b)?;
    let ns = lengths(alloc, told, work, dims)?;
    resolved(alloc, work, at, part, ns)
}

/// The name of a type comes in force.
pub(crate) fn new_type(
    work: &mut Work,
    at: Pos,
    name: &Name,
    t: CoreType,
    is_const: bool,
) -> Result<(), Fault>
    ensures { Gives (λ _. tt) result (state_of work.new) (parts.new_type at name.now (type_of t) is_const (state_of work.old)) }
{
    new_name(at, work.first_name, work.names.as_slice(), name)?;
    let copy = name.clone()?;
    work.add_name(copy, Meaning::Type(t, is_const))
}

// A local comes in force.
fn new_local(
    alloc: Global,
    work: &mut Work,
    at: Pos,
    name: &Name,
    t: &CoreType,
    is_const: bool,
) -> Result<u32, Fault>
    ensures { Gives (λ k. k) result (state_of work.new) (parts.new_local at name.now (type_of t.now) is_const (state_of work.old)) }
{
    size(work.structs.as_slice(), at, t)?;
    new_name(at, work.first_name, work.names.as_slice(), name)?;
    let k = work.fresh(copied(alloc, t)?)?;
    let copy = name.clone()?;
    work.add_name(copy, Meaning::Local(k, copied(alloc, t)?, is_const))?;
    Ok(k)
}

// A local is set to 0, and its initial values are stored.
fn set(
    alloc: Global,
    told: &Told,
    work: &mut Work,
    at: Pos,
    local: u32,
    ty: CoreType,
    init: &Option<Init>,
) -> Result<Vec<CoreStmt>, Fault>
    ensures { Gives (λ v. map stmt_of v.items) result (state_of work.new) (parts.set (env_of told.now.env) told.now.values at local (type_of ty) (option_map init_of init.now) (state_of work.old)) }
{
    let done = initials_of(alloc, told, work, at, Root::Local(local), ty, init)?;
    Ok(cleared(alloc, local, done)?)
}

fn variable(
    alloc: Global,
    told: &Told,
    work: &mut Work,
    v: &Variable,
    b: &Based,
    said: bool,
) -> Result<Vec<CoreStmt>, Fault>
    ensures { Gives (λ v. map stmt_of v.items) result (state_of work.new) (parts.one_variable (env_of told.now.env) told.now.values (based_of b.now) said (variable_of v.now) (state_of work.old)) }
{
    let d = &v.declarator;
    let t = shaped(alloc, told, work, v.pos, b, d.stars, &d.dims)?;
    let is_const = is_const_at(d.stars, said, b.is_const);
    let k = new_local(alloc, work, v.pos, &d.name, &t, is_const)?;
    set(alloc, told, work, v.pos, k, t, &v.init)
}

/// Variables that share the type before their stars.
#[tactic(auto, using(crate::proofs::Loops::variable_lists))]
pub(crate) fn all_variables(
    alloc: Global,
    told: &Told,
    work: &mut Work,
    vars: &List<Variable>,
    b: &Based,
    said: bool,
) -> Result<Vec<CoreStmt>, Fault>
    ensures { Gives (λ v. map stmt_of v.items) result (state_of work.new) (spec.all_variables (env_of told.now.env) told.now.values (based_of b.now) said (map variable_of vars.now) (state_of work.old)) }
{
    let mut code = Vec::new(alloc);
    for v in vars.as_slice() {
        let more = variable(alloc, told, work, v, b, said)?;
        add_stmts(&mut code, more)?;
    }
    Ok(code)
}
