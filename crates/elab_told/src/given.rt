//! The parameters of generic components, and what they stand for.

ghost use Rattle.std.specs.Prelude.{◌≡◌, map, IfOk};
ghost use Rattle.elab_meaning.specs.Answers.{Gives};
ghost use Rattle.elab_meaning.specs.View.{meaning_of, state_of};
ghost use Rattle.elab_targets.specs.View.{argument_of, given_of};
ghost use Rattle.program_meaning.specs.Items as items;
ghost use Rattle.program_meaning.specs.Modules as spec;
ghost use Rattle.elab_told.specs.Given as own;
ghost use Rattle.elab_told.specs.View.{met_of};

use crate::met::{Met, type_as};
use elab_meaning::{Meaning, Work};
use elab_targets::{Argument, Given};
use nm_base::{Fault, NoMemory, beside};
use std::alloc::Global;

fn meaning_as(alloc: Global, met: &Met, argument: &Argument) -> Result<Meaning, NoMemory>
    ensures { IfOk result (λ m. meaning_of m ≡ items.meaning_of (spec.argument_as (met_of met.now) (argument_of argument.now))) }
{
    match argument {
        Argument::Type(t, is_const) => Ok(Meaning::Type(type_as(alloc, met, t)?, *is_const)),
        Argument::Constant(value) => Ok(Meaning::Constant(value.0, value.1)),
    }
}

fn given_name(alloc: Global, work: &mut Work, met: &Met, given: &Given) -> Result<(), Fault>
    ensures { Gives (λ _. tt) result (state_of work.new) (own.given_name (spec.given_as (met_of met.now) (given_of given.now)) (state_of work.old)) }
{
    let meaning = meaning_as(alloc, met, &given.argument)?;
    let (meaning, name) = beside(meaning, given.name.clone())?;
    work.add_name(name, meaning)
}

/// The parameters of a generic component come in force, with what they stand for.
pub fn given_names(alloc: Global, work: &mut Work, met: &Met, given: &[Given]) -> Result<(), Fault>
    ensures { Gives (λ _. tt) result (state_of work.new) (items.given_names (map (spec.given_as (met_of met.now)) (map given_of given.now)) (state_of work.old)) }
{
    for one in given {
        given_name(alloc, work, met, one)?;
    }
    Ok(())
}
