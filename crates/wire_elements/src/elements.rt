//! What is told of elements: the numbers of their type arguments, and the greatest value of their parameter.

ghost use Rattle.std.specs.Prelude.{◌≡◌, [], map, IfOk};
ghost use Rattle.std.specs.Option.{option_map};
ghost use Rattle.nesc_core.specs.View.{type_of};
ghost use Rattle.nesc_tree.specs.View.{spec_of};
ghost use Rattle.elab_meaning.specs.Answers.{Follows, Gives};
ghost use Rattle.elab_meaning.specs.View.{state_of};
ghost use Rattle.wire_facts.specs.Components.{element_of};
ghost use Rattle.wire_facts.specs.Seen as spec;
ghost use Rattle.wire_scopes.specs.Keys.{types_in};
ghost use Rattle.wire_elements.specs.Parts as parts;
ghost use Rattle.wire_elements.specs.View.{early_env};

use crate::early::Early;
use crate::headers::hides;
use elab_meaning::Work;
use elab_values::{bad_type, int_of};
use nesc_core::CoreType;
use nesc_tree::{Elem, TypeSpec};
use nm_base::{Fault, IntType, List, NoMemory, Pos};
use std::alloc::Global;
use wire_pairs::ElementFacts;
use wire_scopes::Types;

// The number of a type among those that were met. One above 2^32 - 1 finds no memory.
fn numbered(types: &mut Types, t: &CoreType) -> Result<u32, NoMemory>
    ensures { IfOk result (λ k. spec.numbered (types_in types.old) (type_of t.now) ≡ (k, types_in types.new)) }
{
    let number = types.number(t)?;
    match u32::try_from(number) {
        Ok(number) => Ok(number),
        Err(_) => Err(NoMemory),
    }
}

// The number of a type argument.
fn arg_told(
    alloc: Global,
    early: &Early,
    work: &mut Work,
    types: &mut Types,
    t: &TypeSpec,
    at: Pos,
) -> Result<u32, Fault>
    ensures { Gives (λ k. (k, types_in types.new)) result (state_of work.new) (spec.arg_told (early_env early.now) at (types_in types.old) (spec_of t.now) (state_of work.old)) }
{
    let t = early.type_of(alloc, work, t, at)?;
    Ok(numbered(types, &t)?)
}

// The numbers of type arguments.
fn args_told(
    alloc: Global,
    early: &Early,
    work: &mut Work,
    types: &mut Types,
    args: &[TypeSpec],
    at: Pos,
) -> Result<Vec<u32>, Fault>
    ensures { Gives (λ v. (v.items, types_in types.new)) result (state_of work.new) (spec.args_told (early_env early.now) at (types_in types.old) [] (map spec_of args.now) (state_of work.old)) }
{
    let mut numbers = Vec::new(alloc);
    for t in args {
        let number = arg_told(alloc, early, work, types, t, at)?;
        numbers.push(number)?;
    }
    Ok(numbers)
}

// The greatest value of a parameter of this type, which is an unsigned integer of 8 or 16 bits.
fn greatest_of(at: Pos, t: Option<IntType>) -> Result<Option<u16>, Fault>
    ensures { Follows (λ g. g) result (spec.greatest_of at t) }
{
    match t {
        Some(IntType::U8) => Ok(Some(255)),
        Some(IntType::U16) => Ok(Some(65535)),
        Some(IntType::I8) | Some(IntType::I16) | Some(IntType::I32) | Some(IntType::U32) | None =>
            bad_type(at),
    }
}

fn greatest_in(
    alloc: Global,
    early: &Early,
    work: &mut Work,
    t: &TypeSpec,
    at: Pos,
) -> Result<Option<u16>, Fault>
    ensures { Gives (λ g. g) result (state_of work.new) (parts.greatest_in (early_env early.now) at (spec_of t.now) (state_of work.old)) }
{
    let t = early.type_of(alloc, work, t, at)?;
    greatest_of(at, int_of(&t))
}

// The greatest value of the parameter of an element, where it has one.
fn greatest_told(
    alloc: Global,
    early: &Early,
    work: &mut Work,
    param: &Option<TypeSpec>,
    at: Pos,
) -> Result<Option<u16>, Fault>
    ensures { Gives (λ g. g) result (state_of work.new) (spec.greatest_told (early_env early.now) at (option_map spec_of param.now) (state_of work.old)) }
{
    match param {
        None => Ok(None),
        Some(t) => greatest_in(alloc, early, work, t, at),
    }
}

// What is told of an element, whose name is in force behind it.
fn element_told(
    alloc: Global,
    early: &Early,
    work: &mut Work,
    types: &mut Types,
    e: &Elem,
) -> Result<ElementFacts, Fault>
    ensures { Gives (λ f. (f, types_in types.new)) result (state_of work.new) (spec.element_told (early_env early.now) (types_in types.old) (element_of e.now) (state_of work.old)) }
{
    let args = args_told(alloc, early, work, types, e.args.as_slice(), e.pos)?;
    let greatest = greatest_told(alloc, early, work, &e.param, e.pos)?;
    hides(work, &e.name)?;
    Ok(ElementFacts {
        args: List::new(args),
        greatest,
    })
}

/// What is told of elements, in the order of the text, with the types that are met.
pub(crate) fn elements_told(
    alloc: Global,
    early: &Early,
    work: &mut Work,
    types: &mut Types,
    elems: &[Elem],
) -> Result<Vec<ElementFacts>, Fault>
    ensures { Gives (λ v. (v.items, types_in types.new)) result (state_of work.new) (spec.elements_told (early_env early.now) (types_in types.old) [] (map element_of elems.now) (state_of work.old)) }
{
    let mut facts = Vec::new(alloc);
    for e in elems {
        let one = element_told(alloc, early, work, types, e)?;
        facts.push(one)?;
    }
    Ok(facts)
}
