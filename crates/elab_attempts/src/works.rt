//! What is in force, and the same once more for work that may be refused.

ghost use Rattle.std.specs.Prelude.{◌≡◌, [], IfOk, Ok, OnOk, Some};
ghost use Rattle.std.specs.Option.{option_map};
ghost use Rattle.nesc_tree.specs.View.{base_of, expr_of};
ghost use Rattle.elab_meaning.specs.View.{based_of, state_of};
ghost use Rattle.elab_meaning.specs.Wired as wired;
ghost use Rattle.elab_pieces.specs.Flow.{entered, left, outer, outer_of};
ghost use Rattle.body_meaning.specs.View.{decl_of, param_of, variable_of};
ghost use Rattle.nesc_unwired.specs.Calls as spec;
ghost use Rattle.nesc_unwired.specs.Calls.{Module, constant_of};
ghost use Rattle.wire_elements.specs.View.{early_env};
ghost use Rattle.elab_attempts.specs.Attempts.{attempted, type_in_force};
ghost use Rattle.elab_attempts.specs.Parts.{hidden, in_force};
ghost use Rattle.elab_attempts.specs.View.{AreSame, attempt_of, kept_in};

use crate::attempts::{Attempt, hide};
use crate::both::{based, constant_found, declare};
use crate::copies::{copy_into, no_work};
use elab_meaning::{Based, Work};
use elab_pieces::{Outer, enter, leave};
use nesc_tree::{Base, Decl, Expr, Param, Variable};
use nesc_types::Constant;
use nm_base::{Name, NoMemory, Pos};
use std::alloc::Global;
use wire_elements::Early;

/// What is in force, and a trial in which work is done first that may be refused. Where the two are not the same, the trial is made anew
/// before the next such work.
#[derive(Drop)]
pub(crate) struct Works {
    pub kept: Work,
    pub trial: Work,
    pub is_same: bool,
}

/// What the work has is in force.
pub(crate) fn works_of(alloc: Global, work: &Work) -> Result<Works, NoMemory>
    ensures now { IfOk result (λ w. kept_in w ≡ state_of work.now) }
    ensures same { IfOk result (λ w. AreSame w) }
{
    let mut kept = no_work(alloc);
    copy_into(alloc, work, &mut kept)?;
    Ok(Works {
        kept,
        trial: no_work(alloc),
        is_same: false,
    })
}

// Makes the trial anew, where it is not the same as what is kept.
fn renew(alloc: Global, works: &mut Works) -> Result<(), NoMemory>
    requires { AreSame works.old }
    ensures kept { kept_in works.new ≡ kept_in works.old }
    ensures trial { OnOk result (state_of works.new.trial ≡ kept_in works.new) }
    ensures same { AreSame works.new }
{
    if works.is_same {
        return Ok(());
    }
    copy_into(alloc, &works.kept, &mut works.trial)?;
    works.is_same = true;
    Ok(())
}

/// A name comes in force that is neither a constant nor a type.
pub(crate) fn hide_in(works: &mut Works, name: &Name) -> Result<(), NoMemory>
    requires { AreSame works.old }
    ensures now { OnOk result (kept_in works.new ≡ hidden name.now (kept_in works.old)) }
    ensures same { AreSame works.new }
{
    let is_same = works.is_same;
    works.is_same = false;
    hide(&mut works.trial, name)?;
    hide(&mut works.kept, name)?;
    works.is_same = is_same;
    Ok(())
}

/// Opens a scope.
pub(crate) fn enter_in(works: &mut Works) -> Outer
    requires { AreSame works.old }
    ensures outer { outer_of result ≡ outer (kept_in works.old) }
    ensures now { kept_in works.new ≡ entered (kept_in works.old) }
    ensures same { AreSame works.new }
{
    enter(&mut works.trial);
    enter(&mut works.kept)
}

/// Ends the scope.
pub(crate) fn leave_in(works: &mut Works, outer: Outer)
    requires { AreSame works.old }
    ensures now { kept_in works.new ≡ left (outer_of outer) (kept_in works.old) }
    ensures same { AreSame works.new }
{
    leave(&mut works.trial, outer);
    leave(&mut works.kept, outer);
}

// What is declared comes in force, whatever is refused.
fn declare_in(
    alloc: Global,
    early: &Early,
    works: &mut Works,
    attempt: &Attempt,
) -> Result<(), NoMemory>
    requires { AreSame works.old }
    ensures now { OnOk result (in_force (early_env early.now) (attempt_of attempt.now) (kept_in works.old) ≡ Ok (tt, kept_in works.new)) }
    ensures same { AreSame works.new }
{
    renew(alloc, works)?;
    works.is_same = false;
    works.is_same = declare(alloc, early, &mut works.kept, &mut works.trial, attempt)?;
    Ok(())
}

fn typed_variable_in(
    alloc: Global,
    early: &Early,
    works: &mut Works,
    b: &Based,
    said: bool,
    v: &Variable,
) -> Result<(), NoMemory>
    requires { AreSame works.old }
    ensures now { (m : Module) → OnOk result (spec.variable_by (early_env early.now) m (Some (based_of b.now)) said (variable_of v.now) (kept_in works.old) ≡ Ok (tt, kept_in works.new)) }
    ensures same { AreSame works.new }
{
    declare_in(alloc, early, works, &Attempt::Variable(b, said, v))
}

/// The name of a variable comes in force, behind the type before its stars, where that is not refused.
pub(crate) fn variable_in(
    alloc: Global,
    early: &Early,
    works: &mut Works,
    b: &Option<Based>,
    said: bool,
    v: &Variable,
) -> Result<(), NoMemory>
    requires { AreSame works.old }
    ensures now { (m : Module) → OnOk result (spec.variable_by (early_env early.now) m (option_map based_of b.now) said (variable_of v.now) (kept_in works.old) ≡ Ok (tt, kept_in works.new)) }
    ensures same { AreSame works.new }
{
    match b {
        None => hide_in(works, &v.declarator.name),
        Some(b) => typed_variable_in(alloc, early, works, b, said, v),
    }
}

/// The name of a type, or a tag, comes in force in a block.
pub(crate) fn declare_type_in(
    alloc: Global,
    early: &Early,
    works: &mut Works,
    d: &Decl,
    at: Pos,
) -> Result<(), NoMemory>
    requires { AreSame works.old }
    ensures now { OnOk result (type_in_force (early_env early.now) at (decl_of d.now) (kept_in works.old) ≡ Ok (tt, kept_in works.new)) }
    ensures same { AreSame works.new }
{
    declare_in(alloc, early, works, &Attempt::Type(d, at))
}

/// The name of a parameter comes in force, where it has one.
pub(crate) fn parameter_in(
    alloc: Global,
    early: &Early,
    works: &mut Works,
    at: Pos,
    p: &Param,
) -> Result<(), NoMemory>
    requires { AreSame works.old }
    ensures now { (m : Module) → OnOk result (spec.param_in_force (early_env early.now) m at (param_of p.now) (kept_in works.old) ≡ Ok (tt, kept_in works.new)) }
    ensures same { AreSame works.new }
{
    declare_in(alloc, early, works, &Attempt::Parameter(p, at))
}

/// The name of the parameter in the bracket of a command or an event comes in force.
pub(crate) fn bracket_in(
    alloc: Global,
    early: &Early,
    works: &mut Works,
    at: Pos,
    p: &Option<Param>,
) -> Result<(), NoMemory>
    requires { AreSame works.old }
    ensures now { (m : Module) → OnOk result (spec.bracket_in_force (early_env early.now) m at (option_map param_of p.now) (kept_in works.old) ≡ Ok (tt, kept_in works.new)) }
    ensures same { AreSame works.new }
{
    declare_in(alloc, early, works, &Attempt::Bracket(p, at))
}

/// The type before the stars of a declaration that stands at a place, or none where it is refused.
pub(crate) fn base_in(
    alloc: Global,
    early: &Early,
    works: &mut Works,
    b: &Base,
    at: Pos,
) -> Result<Option<Based>, NoMemory>
    requires { AreSame works.old }
    ensures value { IfOk result (λ found. option_map based_of found ≡ (attempted (wired.base_of (early_env early.now) [] at (base_of b.now)) (kept_in works.old)).0) }
    ensures now { OnOk result (kept_in works.new ≡ (attempted (wired.base_of (early_env early.now) [] at (base_of b.now)) (kept_in works.old)).1) }
    ensures same { AreSame works.new }
{
    renew(alloc, works)?;
    works.is_same = false;
    let found = based(alloc, early, &mut works.kept, &mut works.trial, b, at)?;
    works.is_same = found.is_some();
    Ok(found)
}

/// The type and the number of a constant, or none where it is refused.
pub(crate) fn constant_in(
    alloc: Global,
    early: &Early,
    works: &mut Works,
    e: &Expr,
) -> Result<Option<Constant>, NoMemory>
    requires { AreSame works.old }
    ensures value { IfOk result (λ c. c ≡ constant_of (wired.whole_constant (early_env early.now) [] (expr_of e.now) (kept_in works.old))) }
    ensures now { kept_in works.new ≡ kept_in works.old }
    ensures same { AreSame works.new }
{
    renew(alloc, works)?;
    works.is_same = false;
    let found = constant_found(alloc, early, &works.kept, &mut works.trial, e)?;
    works.is_same = found.is_some();
    Ok(found)
}
