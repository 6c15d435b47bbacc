//! The arguments of an interface's type parameters.

ghost use Rattle.std.specs.Prelude.{map, IfOk, ◌≡◌};
ghost use Rattle.nesc_core.specs.View.{type_of};
ghost use Rattle.nesc_tree.specs.View.{exprs_of, spec_of};
ghost use Rattle.elab_locals.specs.Parts as locals;
ghost use Rattle.elab_meaning.specs.Answers.{Gives};
ghost use Rattle.elab_meaning.specs.View.{based_of, entry_of, env_of, state_of};
ghost use Rattle.program_meaning.specs.Items as spec;
ghost use Rattle.elab_items.specs.Parts as parts;

use elab_exprs::{Told, base, lengths};
use elab_forms::{is_const_at, resolved, starred};
use elab_meaning::{Based, Entry, Meaning, Work};
use nesc_core::CoreType;
use nesc_tree::{Expr, TypeSpec};
use nm_base::{Fault, List, Name, NoMemory, Pos, beside};
use std::alloc::Global;

fn shaped(
    alloc: Global,
    told: &Told,
    work: &mut Work,
    at: Pos,
    b: &Based,
    stars: u8,
    dims: &List<Expr>,
) -> Result<CoreType, Fault>
    ensures { Gives type_of result (state_of work.new) (locals.shaped (env_of told.now.env) told.now.values at (based_of b.now) stars (exprs_of dims.now) (state_of work.old)) }
{
    let part = starred(alloc, work, at, stars, b)?;
    let ns = lengths(alloc, told, work, dims)?;
    resolved(alloc, work, at, part, ns)
}

fn argument_type(
    alloc: Global,
    told: &Told,
    work: &mut Work,
    at: Pos,
    t: &TypeSpec,
) -> Result<Based, Fault>
    ensures { Gives based_of result (state_of work.new) (parts.argument_type (env_of told.now.env) told.now.values at (spec_of t.now) (state_of work.old)) }
{
    let b = base(alloc, told, work, &t.base, at)?;
    let is_const = is_const_at(t.stars, t.is_const, b.is_const);
    let ty = shaped(alloc, told, work, at, &b, t.stars, &t.dims)?;
    Ok(Based { ty, is_const })
}

fn type_entry(name: &Name, b: Based) -> Result<Entry, NoMemory>
    ensures { IfOk result (λ e. entry_of e ≡ spec.type_entry name.now (based_of b)) }
{
    let (b, name) = beside(b, name.clone())?;
    Ok(Entry {
        name,
        meaning: Meaning::Type(b.ty, b.is_const),
    })
}

// A parameter stands for its argument.
fn argument(
    alloc: Global,
    told: &Told,
    work: &mut Work,
    at: Pos,
    name: &Name,
    t: &TypeSpec,
) -> Result<Entry, Fault>
    ensures { Gives entry_of result (state_of work.new) (parts.one_argument (env_of told.now.env) told.now.values at name.now (spec_of t.now) (state_of work.old)) }
{
    let b = argument_type(alloc, told, work, at, t)?;
    Ok(type_entry(name, b)?)
}

/// What the parameters of an interface stand for, in their order; all is told at the element's name.
#[tactic(auto, using(crate::proofs::Loops::argument_lists))]
pub fn arguments(
    alloc: Global,
    told: &Told,
    work: &mut Work,
    at: Pos,
    params: &[Name],
    args: &[TypeSpec],
) -> Result<Vec<Entry>, Fault>
    ensures { Gives (λ v. map entry_of v.items) result (state_of work.new) (parts.arguments (env_of told.now.env) told.now.values at params.now (map spec_of args.now) (state_of work.old)) }
{
    let mut entries = Vec::new(alloc);
    let mut params = params;
    for t in args {
        let Some((name, rest)) = params.split_first() else {
            return Ok(entries);
        };
        let entry = argument(alloc, told, work, at, name, t)?;
        entries.push(entry)?;
        params = rest;
    }
    Ok(entries)
}
