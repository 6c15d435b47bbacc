//! What the parameters of generic components stand for.

ghost use Rattle.std.specs.Prelude.{◌≡◌, IfOk, map};
ghost use Rattle.std.specs.Option.{option_map};
ghost use Rattle.elab_meaning.specs.View.{entry_of, meaning_of};
ghost use Rattle.elab_targets.specs.View.{argument_of as argument_view, given_of};
ghost use Rattle.wire_facts.specs.Components.{param_of};
ghost use Rattle.elab_application.specs.Instances as spec;

use elab_meaning::{Entry, Meaning};
use elab_names::look_up;
use elab_targets::{Argument, Given};
use elab_values::copied;
use nesc_core::CoreType;
use nesc_tree::GenericParam;
use nm_base::{Name, NoMemory, beside};
use std::alloc::{AllocError, Global};

fn type_argument(alloc: Global, t: &CoreType, is_const: bool) -> Result<Option<Argument>, NoMemory>
    ensures { IfOk result (λ a. option_map argument_view a ≡ spec.argument_of (meaning_of (Meaning.Type t.now is_const))) }
{
    Ok(Some(Argument::Type(copied(alloc, t)?, is_const)))
}

fn argument_of(alloc: Global, meaning: &Meaning) -> Result<Option<Argument>, NoMemory>
    ensures { IfOk result (λ a. option_map argument_view a ≡ spec.argument_of (meaning_of meaning.now)) }
{
    match meaning {
        Meaning::Type(t, is_const) => type_argument(alloc, t, *is_const),
        Meaning::Constant(t, n) => Ok(Some(Argument::Constant((*t, *n)))),
        Meaning::Object(_, _, _) => Ok(None),
        Meaning::Local(_, _, _) => Ok(None),
        Meaning::Function(_, _, _) => Ok(None),
        Meaning::Task(_) => Ok(None),
    }
}

fn argument_named(alloc: Global, names: &[Entry], name: &Name) -> Result<Option<Argument>, NoMemory>
    ensures { IfOk result (λ a. option_map argument_view a ≡ spec.argument_named (map entry_of names.now) name.now) }
{
    match look_up(names, name) {
        Some(meaning) => argument_of(alloc, meaning),
        None => Ok(None),
    }
}

fn given(argument: Option<Argument>, name: &Name) -> Result<Option<Given>, NoMemory>
    ensures { IfOk result (λ g. option_map given_of g ≡ option_map (spec.given name.now) (option_map argument_view argument)) }
{
    let Some(argument) = argument else {
        return Ok(None);
    };
    let copy: Result<Name, AllocError> = name.clone();
    let (argument, name) = beside(argument, copy)?;
    Ok(Some(Given { name, argument }))
}

fn given_for(
    alloc: Global,
    names: &[Entry],
    param: &GenericParam,
) -> Result<Option<Given>, NoMemory>
    ensures { IfOk result (λ g. option_map given_of g ≡ spec.given_for (map entry_of names.now) (param_of param.now)) }
{
    given(argument_named(alloc, names, &param.name)?, &param.name)
}

/// The parameters of a generic component with what their names mean among these, the innermost of each name.
pub fn given_in(
    alloc: Global,
    names: &[Entry],
    params: &[GenericParam],
) -> Result<Vec<Given>, NoMemory>
    ensures { IfOk result (λ v. map given_of v.items ≡ spec.given_in (map entry_of names.now) (map param_of params.now)) }
{
    let mut all = Vec::new(alloc);
    for param in params {
        if let Some(given) = given_for(alloc, names, param)? {
            all.push(given)?;
        }
    }
    Ok(all)
}
