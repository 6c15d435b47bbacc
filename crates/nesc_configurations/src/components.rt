//! Reading the components that a configuration uses (nesC 1.3 Reference).

ghost use Rattle.std.specs.Prelude.{◌≡◌, ◌<◌, ◌^◌, ℕ, None};
ghost use Rattle.nesc_grammar.specs.Grammar as grammar;
ghost use Rattle.nesc_grammar.specs.Components as spec;
ghost use Rattle.nesc_parse_types.specs.Gives.{Gives, GivesToken, form_in};
ghost use Rattle.nesc_configurations.specs.Parts as parts;
ghost use Rattle.nesc_configurations.specs.Reads as reads;

use crate::arguments::arguments;
use crate::parts::component_of;
use nesc_parse_decls::{added, single};
use nesc_parse_types::{Found, expect, is_comma, name};
use nesc_specifications::named_as;
use nesc_tree::{ConfLine, GenericArg, Sort, TypeNames, ahead};
use nm_base::{List, Token, beside};
use std::alloc::Global;

fn read_component_end<'a>(
    alloc: Global,
    names: &TypeNames,
    spare: usize,
    token: &'a Token,
    args: Option<List<GenericArg>>,
    ts: &'a [Token],
) -> Found<'a, ConfLine>
    ensures { Gives names.now result (reads.component_end spare token.now args names.now ts.now) }
{
    let (args, (alias, rest)) = beside(args, named_as(names, token, ts))?;
    Ok((component_of(alloc, token, args, alias)?, rest))
}

// The name behind `as`, where it is there, makes a component of the name and the arguments before it.
fn component_end<'a>(
    alloc: Global,
    names: &TypeNames,
    spare: usize,
    token: &'a Token,
    args: Option<List<GenericArg>>,
    ts: &'a [Token],
) -> Found<'a, ConfLine>
    ensures { Gives names.now result (form_in spare (grammar.applied token.now (parts.component_end args)) names.now ts.now) }
{
    read_component_end(alloc, names, spare, token, args, ts)
}

#[tactic(auto, unfolding(nesc_tree::specs::Reading::read))]
fn new_name<'a>(names: &TypeNames, ts: &'a [Token]) -> Found<'a, &'a Token>
    ensures { (spare : ℕ) → GivesToken names.now result (form_in spare parts.new_name names.now ts.now) }
{
    let (_, rest) = expect(names, Sort::New, ts)?;
    let (token, rest) = name(names, rest)?;
    Ok((token, rest))
}

fn read_new_component<'a>(
    alloc: Global,
    names: &TypeNames,
    spare: usize,
    ts: &'a [Token],
) -> Found<'a, ConfLine>
    requires few { spare < 2 ^ 8 }
    requires room { 0 < spare }
    ensures { Gives names.now result (reads.new_component spare names.now ts.now) }
{
    let (token, rest) = new_name(names, ts)?;
    let (args, rest) = arguments(alloc, names, spare, rest)?;
    component_end(alloc, names, spare, token, Some(args), rest)
}

/// A component that is made here of a generic one.
fn new_component<'a>(
    alloc: Global,
    names: &TypeNames,
    spare: usize,
    ts: &'a [Token],
) -> Found<'a, ConfLine>
    requires few { spare < 2 ^ 8 }
    requires room { 0 < spare }
    ensures { Gives names.now result (form_in spare spec.new_component names.now ts.now) }
{
    read_new_component(alloc, names, spare, ts)
}

/// A component that stands once.
#[tactic(auto, unfolding(nesc_tree::specs::Reading::read))]
fn old_component<'a>(
    alloc: Global,
    names: &TypeNames,
    spare: usize,
    ts: &'a [Token],
) -> Found<'a, ConfLine>
    ensures { Gives names.now result (form_in spare spec.old_component names.now ts.now) }
{
    let (token, rest) = name(names, ts)?;
    component_end(alloc, names, spare, token, None, rest)
}

// A component by its first token.
#[tactic(auto, unfolding(nesc_tree::specs::Reading::read))]
fn component_at<'a>(
    alloc: Global,
    names: &TypeNames,
    spare: usize,
    first: Sort,
    ts: &'a [Token],
) -> Found<'a, ConfLine>
    requires few { spare < 2 ^ 8 }
    requires room { 0 < spare }
    ensures { Gives names.now result (form_in spare (spec.component_of first) names.now ts.now) }
{
    match first {
        Sort::New => new_component(alloc, names, spare, ts),
        _ => old_component(alloc, names, spare, ts),
    }
}

fn component<'a>(
    alloc: Global,
    names: &TypeNames,
    spare: usize,
    ts: &'a [Token],
) -> Found<'a, ConfLine>
    requires few { spare < 2 ^ 8 }
    requires room { 0 < spare }
    ensures { Gives names.now result (form_in spare parts.component names.now ts.now) }
{
    let first = ahead(names, ts);
    component_at(alloc, names, spare, first, ts)
}

#[tactic(auto, unfolding(nesc_tree::specs::Reading::read))]
fn another_component<'a>(
    alloc: Global,
    names: &TypeNames,
    spare: usize,
    so_far: List<ConfLine>,
    ts: &'a [Token],
) -> Found<'a, List<ConfLine>>
    requires few { spare < 2 ^ 8 }
    requires room { 0 < spare }
    ensures { Gives names.now result (form_in spare (grammar.applied so_far parts.another_component) names.now ts.now) }
{
    let (so_far, (_, rest)) = beside(so_far, expect(names, Sort::Comma, ts))?;
    let (so_far, (next, rest)) = beside(so_far, component(alloc, names, spare, rest))?;
    Ok((added(so_far, next)?, rest))
}

/// Components with commas between them.
#[tactic(auto, unfolding(nesc_tree::specs::Reading::read))]
fn some_components<'a>(
    alloc: Global,
    names: &TypeNames,
    spare: usize,
    ts: &'a [Token],
) -> Found<'a, List<ConfLine>>
    requires few { spare < 2 ^ 8 }
    requires room { 0 < spare }
    ensures { Gives names.now result (form_in spare parts.some_components names.now ts.now) }
{
    let (first, rest) = component(alloc, names, spare, ts)?;
    let mut list = single(alloc, first)?;
    let mut rest = rest;
    while is_comma(ahead(names, rest)) {
        let (so_far, behind) = another_component(alloc, names, spare, list, rest)?;
        list = so_far;
        rest = behind;
    }
    Ok((list, rest))
}

/// The line that names components.
#[tactic(auto, unfolding(nesc_tree::specs::Reading::read))]
pub fn components_line<'a>(
    alloc: Global,
    names: &TypeNames,
    spare: usize,
    ts: &'a [Token],
) -> Found<'a, List<ConfLine>>
    requires few { spare < 2 ^ 8 }
    requires room { 0 < spare }
    ensures { Gives names.now result (form_in spare spec.components_line names.now ts.now) }
{
    let (_, rest) = expect(names, Sort::Components, ts)?;
    let (list, rest) = some_components(alloc, names, spare, rest)?;
    let (list, (_, rest)) = beside(list, expect(names, Sort::Semi, rest))?;
    Ok((list, rest))
}
