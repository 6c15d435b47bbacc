//! Reading attributes (nesC 1.3 Reference).

ghost use Rattle.std.specs.Prelude.{◌≡◌, ◌<◌, ◌^◌, ℕ};
ghost use Rattle.nesc_grammar.specs.Grammar as grammar;
ghost use Rattle.nesc_grammar.specs.Declarations as spec;
ghost use Rattle.nesc_parse_types.specs.Gives.{Gives, form_in};
ghost use Rattle.nesc_parse_decls.specs.Parts as parts;

use crate::parts::{added, attribute_of, no_list, single, text_argument, value_argument};
use nesc_operands::precedence::begins_expr;
use nesc_parse_exprs::expr;
use nesc_parse_types::{Found, expect, is_comma, name};
use nesc_tree::{Attr, AttrArg, Sort, TypeNames, ahead, level};
use nm_base::{List, Token, beside};
use std::alloc::Global;

/// Whether an argument of an attribute begins with a token of this sort.
fn begins_argument(first: Sort) -> bool
    ensures { result ≡ parts.begins_argument first }
{
    match first {
        Sort::Text => true,
        _ => begins_expr(first),
    }
}

fn is_at(sort: Sort) -> bool
    ensures { result ≡ spec.is_at sort }
{
    matches!(sort, Sort::At)
}

#[tactic(auto, unfolding(nesc_tree::specs::Reading::read))]
fn text<'a>(alloc: Global, names: &TypeNames, ts: &'a [Token]) -> Found<'a, AttrArg>
    ensures { (spare : ℕ) → Gives names.now result (form_in spare parts.text_argument names.now ts.now) }
{
    let (token, rest) = expect(names, Sort::Text, ts)?;
    Ok((text_argument(alloc, token)?, rest))
}

#[tactic(auto, unfolding(nesc_tree::specs::Reading::read))]
fn value<'a>(alloc: Global, names: &TypeNames, spare: usize, ts: &'a [Token]) -> Found<'a, AttrArg>
    requires { spare < 2 ^ 8 }
    ensures { Gives names.now result (form_in spare parts.value_argument names.now ts.now) }
{
    let (found, rest) = expr(alloc, names, spare, level::CONDITIONAL, ts)?;
    Ok((value_argument(found), rest))
}

/// An argument of an attribute: a text or a value.
fn argument<'a>(
    alloc: Global,
    names: &TypeNames,
    spare: usize,
    ts: &'a [Token],
) -> Found<'a, AttrArg>
    requires { spare < 2 ^ 8 }
    ensures { Gives names.now result (form_in spare parts.argument names.now ts.now) }
{
    match ahead(names, ts) {
        Sort::Text => text(alloc, names, ts),
        _ => value(alloc, names, spare, ts),
    }
}

#[tactic(auto, unfolding(nesc_tree::specs::Reading::read))]
fn another_argument<'a>(
    alloc: Global,
    names: &TypeNames,
    spare: usize,
    so_far: List<AttrArg>,
    ts: &'a [Token],
) -> Found<'a, List<AttrArg>>
    requires { spare < 2 ^ 8 }
    ensures { Gives names.now result (form_in spare (grammar.applied so_far parts.another_argument) names.now ts.now) }
{
    let (so_far, (_, rest)) = beside(so_far, expect(names, Sort::Comma, ts))?;
    let (so_far, (next, rest)) = beside(so_far, argument(alloc, names, spare, rest))?;
    Ok((added(so_far, next)?, rest))
}

/// Arguments with commas between them.
#[tactic(auto, unfolding(nesc_tree::specs::Reading::read))]
fn some_arguments<'a>(
    alloc: Global,
    names: &TypeNames,
    spare: usize,
    ts: &'a [Token],
) -> Found<'a, List<AttrArg>>
    requires { spare < 2 ^ 8 }
    ensures { Gives names.now result (form_in spare parts.some_arguments names.now ts.now) }
{
    let (first, rest) = argument(alloc, names, spare, ts)?;
    let mut list = single(alloc, first)?;
    let mut rest = rest;
    while is_comma(ahead(names, rest)) {
        let (so_far, behind) = another_argument(alloc, names, spare, list, rest)?;
        list = so_far;
        rest = behind;
    }
    Ok((list, rest))
}

/// Arguments, or none.
fn maybe_arguments<'a>(
    alloc: Global,
    names: &TypeNames,
    spare: usize,
    ts: &'a [Token],
) -> Found<'a, List<AttrArg>>
    requires { spare < 2 ^ 8 }
    ensures { Gives names.now result (form_in spare parts.maybe_arguments names.now ts.now) }
{
    if begins_argument(ahead(names, ts)) {
        some_arguments(alloc, names, spare, ts)
    } else {
        Ok((no_list(alloc), ts))
    }
}

#[tactic(auto, unfolding(nesc_tree::specs::Reading::read))]
fn arguments<'a>(
    alloc: Global,
    names: &TypeNames,
    spare: usize,
    ts: &'a [Token],
) -> Found<'a, List<AttrArg>>
    requires { spare < 2 ^ 8 }
    ensures { Gives names.now result (form_in spare spec.attribute_arguments names.now ts.now) }
{
    let (_, rest) = expect(names, Sort::LParen, ts)?;
    let (list, rest) = maybe_arguments(alloc, names, spare, rest)?;
    let (list, (_, rest)) = beside(list, expect(names, Sort::RParen, rest))?;
    Ok((list, rest))
}

/// An attribute.
#[tactic(auto, unfolding(nesc_tree::specs::Reading::read))]
fn attribute<'a>(alloc: Global, names: &TypeNames, spare: usize, ts: &'a [Token]) -> Found<'a, Attr>
    requires { spare < 2 ^ 8 }
    ensures { Gives names.now result (form_in spare spec.attribute names.now ts.now) }
{
    let (_, rest) = expect(names, Sort::At, ts)?;
    let (token, rest) = name(names, rest)?;
    let (args, rest) = arguments(alloc, names, spare, rest)?;
    Ok((attribute_of(alloc, token, args)?, rest))
}

#[tactic(auto, unfolding(nesc_tree::specs::Reading::read))]
fn another_attribute<'a>(
    alloc: Global,
    names: &TypeNames,
    spare: usize,
    so_far: List<Attr>,
    ts: &'a [Token],
) -> Found<'a, List<Attr>>
    requires { spare < 2 ^ 8 }
    ensures { Gives names.now result (form_in spare (grammar.applied so_far parts.another_attribute) names.now ts.now) }
{
    let (so_far, (next, rest)) = beside(so_far, attribute(alloc, names, spare, ts))?;
    Ok((added(so_far, next)?, rest))
}

/// The attributes of a declaration, whose values have at most `spare` levels.
#[tactic(auto, unfolding(nesc_tree::specs::Reading::read))]
pub fn attributes<'a>(
    alloc: Global,
    names: &TypeNames,
    spare: usize,
    ts: &'a [Token],
) -> Found<'a, List<Attr>>
    requires { spare < 2 ^ 8 }
    ensures { Gives names.now result (form_in spare spec.attributes names.now ts.now) }
{
    let mut list = no_list(alloc);
    let mut rest = ts;
    while is_at(ahead(names, rest)) {
        let (so_far, behind) = another_attribute(alloc, names, spare, list, rest)?;
        list = so_far;
        rest = behind;
    }
    Ok((list, rest))
}
