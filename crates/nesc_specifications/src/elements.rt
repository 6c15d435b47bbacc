//! Reading an element of a specification (nesC 1.3 Reference).

ghost use Rattle.std.specs.Prelude.{◌≡◌, ◌<◌, ◌^◌, ℕ};
ghost use Rattle.nesc_grammar.specs.Grammar as grammar;
ghost use Rattle.nesc_grammar.specs.Components as spec;
ghost use Rattle.nesc_parse_types.specs.Gives.{Gives, GivesToken, form_in};
ghost use Rattle.nesc_specifications.specs.Parts as parts;
ghost use Rattle.nesc_specifications.specs.Reads as reads;

use crate::parts::{element_of, type_in};
use nesc_parse_decls::{added, attributes, no_list, single};
use nesc_parse_exprs::type_form;
use nesc_parse_types::{Found, expect, is_comma, name};
use nesc_tree::{CastType, Elem, Sort, TypeNames, TypeSpec, ahead, same_sort};
use nm_base::{List, Token, beside};
use std::alloc::Global;

#[tactic(auto, unfolding(nesc_tree::specs::Reading::read))]
fn interface_name<'a>(names: &TypeNames, ts: &'a [Token]) -> Found<'a, &'a Token>
    ensures { (spare : ℕ) → GivesToken names.now result (form_in spare parts.interface_name names.now ts.now) }
{
    let (_, rest) = expect(names, Sort::Interface, ts)?;
    let (token, rest) = name(names, rest)?;
    Ok((token, rest))
}

#[tactic(auto, unfolding(nesc_tree::specs::Reading::read))]
fn argument<'a>(
    alloc: Global,
    names: &TypeNames,
    spare: usize,
    ts: &'a [Token],
) -> Found<'a, TypeSpec>
    requires { spare < 2 ^ 8 }
    ensures { Gives names.now result (form_in spare parts.argument names.now ts.now) }
{
    let (found, rest) = type_form(alloc, names, spare, ts)?;
    Ok((found.ty, rest))
}

#[tactic(auto, unfolding(nesc_tree::specs::Reading::read))]
fn another_argument<'a>(
    alloc: Global,
    names: &TypeNames,
    spare: usize,
    so_far: List<TypeSpec>,
    ts: &'a [Token],
) -> Found<'a, List<TypeSpec>>
    requires { spare < 2 ^ 8 }
    ensures { Gives names.now result (form_in spare (grammar.applied so_far parts.another_argument) names.now ts.now) }
{
    let (so_far, (_, rest)) = beside(so_far, expect(names, Sort::Comma, ts))?;
    let (so_far, (next, rest)) = beside(so_far, argument(alloc, names, spare, rest))?;
    Ok((added(so_far, next)?, rest))
}

/// Types with commas between them.
#[tactic(auto, unfolding(nesc_tree::specs::Reading::read))]
fn some_arguments<'a>(
    alloc: Global,
    names: &TypeNames,
    spare: usize,
    ts: &'a [Token],
) -> Found<'a, List<TypeSpec>>
    requires few { spare < 2 ^ 8 }
    requires room { 0 < spare }
    ensures { Gives names.now result (form_in spare parts.some_arguments names.now ts.now) }
{
    let (first, rest) = argument(alloc, names, spare, ts)?;
    let mut list = single(alloc, first)?;
    let mut rest = rest;
    while is_comma(ahead(names, rest)) {
        let (so_far, behind) = another_argument(alloc, names, spare, list, rest)?;
        list = so_far;
        rest = behind;
    }
    Ok((list, rest))
}

/// The type arguments of an interface, where they are there.
#[tactic(auto, unfolding(nesc_tree::specs::Reading::read))]
fn type_arguments<'a>(
    alloc: Global,
    names: &TypeNames,
    spare: usize,
    ts: &'a [Token],
) -> Found<'a, List<TypeSpec>>
    requires few { spare < 2 ^ 8 }
    requires room { 0 < spare }
    ensures { Gives names.now result (form_in spare parts.type_arguments names.now ts.now) }
{
    if !same_sort(Sort::Less, ahead(names, ts)) {
        return Ok((no_list(alloc), ts));
    }
    let (_, rest) = expect(names, Sort::Less, ts)?;
    let (list, rest) = some_arguments(alloc, names, spare, rest)?;
    let (list, (_, rest)) = beside(list, expect(names, Sort::Greater, rest))?;
    Ok((list, rest))
}

/// The name behind `as`, or else this one.
#[tactic(auto, unfolding(nesc_tree::specs::Reading::read))]
pub fn named_as<'a>(names: &TypeNames, token: &'a Token, ts: &'a [Token]) -> Found<'a, &'a Token>
    ensures { (spare : ℕ) → GivesToken names.now result (form_in spare (grammar.applied token.now parts.named_as) names.now ts.now) }
{
    if !same_sort(Sort::As, ahead(names, ts)) {
        return Ok((token, ts));
    }
    let (_, rest) = expect(names, Sort::As, ts)?;
    let (alias, rest) = name(names, rest)?;
    Ok((alias, rest))
}

#[tactic(auto, unfolding(nesc_tree::specs::Reading::read))]
fn element_bracket<'a>(
    alloc: Global,
    names: &TypeNames,
    spare: usize,
    ts: &'a [Token],
) -> Found<'a, Option<CastType>>
    requires { spare < 2 ^ 8 }
    ensures { Gives names.now result (form_in spare spec.element_bracket names.now ts.now) }
{
    if !same_sort(Sort::LBracket, ahead(names, ts)) {
        return Ok((None, ts));
    }
    let (_, rest) = expect(names, Sort::LBracket, ts)?;
    let (found, rest) = type_form(alloc, names, spare, rest)?;
    let (found, (_, rest)) = beside(found, name(names, rest))?;
    let (found, (_, rest)) = beside(found, expect(names, Sort::RBracket, rest))?;
    Ok((Some(found), rest))
}

/// The type of a bracket's parameter, and attributes, which have no effect.
#[tactic(auto, unfolding(nesc_tree::specs::Reading::read))]
fn element_end<'a>(
    alloc: Global,
    names: &TypeNames,
    spare: usize,
    ts: &'a [Token],
) -> Found<'a, Option<TypeSpec>>
    requires { spare < 2 ^ 8 }
    ensures { Gives names.now result (form_in spare parts.element_end names.now ts.now) }
{
    let (found, rest) = element_bracket(alloc, names, spare, ts)?;
    let (found, (_, rest)) = beside(found, attributes(alloc, names, spare, rest))?;
    let (found, (_, rest)) = beside(found, expect(names, Sort::Semi, rest))?;
    Ok((type_in(found), rest))
}

fn read_element<'a>(
    alloc: Global,
    names: &TypeNames,
    spare: usize,
    provides: bool,
    ts: &'a [Token],
) -> Found<'a, Elem>
    requires few { spare < 2 ^ 8 }
    requires room { 0 < spare }
    ensures { Gives names.now result (reads.element spare provides names.now ts.now) }
{
    let (interface, rest) = interface_name(names, ts)?;
    let (args, rest) = type_arguments(alloc, names, spare, rest)?;
    let (args, (token, rest)) = beside(args, named_as(names, interface, rest))?;
    let (args, (param, rest)) = beside(args, element_end(alloc, names, spare, rest))?;
    let element = element_of(alloc, provides, interface, args, token, param)?;
    Ok((element, rest))
}

/// An interface that a component provides or uses, with its semicolon.
pub fn element<'a>(
    alloc: Global,
    names: &TypeNames,
    spare: usize,
    provides: bool,
    ts: &'a [Token],
) -> Found<'a, Elem>
    requires few { spare < 2 ^ 8 }
    requires room { 0 < spare }
    ensures { Gives names.now result (form_in spare (grammar.applied provides spec.closed_element) names.now ts.now) }
{
    read_element(alloc, names, spare, provides, ts)
}
