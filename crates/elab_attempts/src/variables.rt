//! Variables whose types and names are looked at without their initial values.

ghost use Rattle.nesc_core.specs.View.{type_of};
ghost use Rattle.nesc_tree.specs.View.{exprs_of};
ghost use Rattle.elab_meaning.specs.Answers.{Gives};
ghost use Rattle.elab_meaning.specs.View.{based_of, env_of, state_of};
ghost use Rattle.body_meaning.specs.View.{variable_of};
ghost use Rattle.elab_locals.specs.Parts as locals;
ghost use Rattle.elab_attempts.specs.Parts as parts;

use elab_exprs::{Told, lengths};
use elab_forms::{is_const_at, resolved, starred};
use elab_meaning::{Based, Meaning, Work};
use elab_types::new_name;
use elab_values::{copied, size};
use nesc_core::CoreType;
use nesc_tree::{Expr, Variable};
use nm_base::{Fault, List, Name, Pos};
use std::alloc::Global;

// The type that stars and dimensions make of the type before them.
fn shaped(
    alloc: Global,
    told: &Told,
    work: &mut Work,
    at: Pos,
    b: &Based,
    stars: u8,
    dims: &List<Expr>,
) -> Result<CoreType, Fault>
    ensures { Gives type_of result (state_of work.new) (locals.shaped (env_of told.now.env) told.now.values at (based_of b.now) stars (exprs_of dims.now) (state_of work.old)) }
{
    let part = starred(alloc, work, at, stars, b)?;
    let ns = lengths(alloc, told, work, dims)?;
    resolved(alloc, work, at, part, ns)
}

// A local comes in force.
fn new_local(
    alloc: Global,
    work: &mut Work,
    at: Pos,
    name: &Name,
    t: &CoreType,
    is_const: bool,
) -> Result<u32, Fault>
    ensures { Gives (λ k. k) result (state_of work.new) (locals.new_local at name.now (type_of t.now) is_const (state_of work.old)) }
{
    size(work.structs.as_slice(), at, t)?;
    new_name(at, work.first_name, work.names.as_slice(), name)?;
    let k = work.fresh(copied(alloc, t)?)?;
    let copy = name.clone()?;
    work.add_name(copy, Meaning::Local(k, copied(alloc, t)?, is_const))?;
    Ok(k)
}

/// A variable comes in force, with its type. Errors: those of its type; DuplicateName for a name that the scope has.
pub(crate) fn placed_variable(
    alloc: Global,
    told: &Told,
    work: &mut Work,
    b: &Based,
    said: bool,
    v: &Variable,
) -> Result<(), Fault>
    ensures { Gives (λ _. tt) result (state_of work.new) (parts.placed_variable (env_of told.now.env) told.now.values (based_of b.now) said (variable_of v.now) (state_of work.old)) }
{
    let d = &v.declarator;
    let t = shaped(alloc, told, work, v.pos, b, d.stars, &d.dims)?;
    let is_const = is_const_at(d.stars, said, b.is_const);
    new_local(alloc, work, v.pos, &d.name, &t, is_const)?;
    Ok(())
}
