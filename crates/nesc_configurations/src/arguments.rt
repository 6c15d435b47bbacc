//! Reading the arguments of generic components (nesC 1.3 Reference).

ghost use Rattle.std.specs.Prelude.{◌≡◌, ◌<◌, ◌^◌};
ghost use Rattle.nesc_grammar.specs.Grammar as grammar;
ghost use Rattle.nesc_grammar.specs.Components as spec;
ghost use Rattle.nesc_parse_types.specs.Gives.{Gives, form_in};
ghost use Rattle.nesc_configurations.specs.Parts as parts;

use nesc_operands::precedence::begins_expr;
use nesc_parse_decls::{added, no_list, single};
use nesc_parse_exprs::{expr, type_form};
use nesc_parse_types::{Found, Stop, begins_type, expect, is_comma};
use nesc_tree::{GenericArg, Sort, TypeNames, ahead, level};
use nm_base::{List, Token, beside};
use std::alloc::Global;

#[tactic(auto, unfolding(nesc_tree::specs::Reading::read))]
fn type_argument<'a>(
    alloc: Global,
    names: &TypeNames,
    spare: usize,
    ts: &'a [Token],
) -> Found<'a, GenericArg>
    requires { spare < 2 ^ 8 }
    ensures { Gives names.now result (form_in spare parts.type_argument names.now ts.now) }
{
    let (found, rest) = type_form(alloc, names, spare, ts)?;
    Ok((GenericArg::Ty(found.ty), rest))
}

#[tactic(auto, unfolding(nesc_tree::specs::Reading::read))]
fn value_argument<'a>(
    alloc: Global,
    names: &TypeNames,
    spare: usize,
    ts: &'a [Token],
) -> Found<'a, GenericArg>
    requires { spare < 2 ^ 8 }
    ensures { Gives names.now result (form_in spare parts.value_argument names.now ts.now) }
{
    let (found, rest) = expr(alloc, names, spare, level::CONDITIONAL, ts)?;
    Ok((GenericArg::Value(found.expr), rest))
}

// An argument by its first token.
#[tactic(auto, unfolding(nesc_tree::specs::Reading::read))]
fn argument_of<'a>(
    alloc: Global,
    names: &TypeNames,
    spare: usize,
    first: Sort,
    ts: &'a [Token],
) -> Found<'a, GenericArg>
    requires { spare < 2 ^ 8 }
    ensures { Gives names.now result (form_in spare (spec.generic_argument_of first) names.now ts.now) }
{
    if begins_type(first) {
        type_argument(alloc, names, spare, ts)
    } else if begins_expr(first) {
        value_argument(alloc, names, spare, ts)
    } else {
        Err(Stop::Syntax(ts))
    }
}

fn argument<'a>(
    alloc: Global,
    names: &TypeNames,
    spare: usize,
    ts: &'a [Token],
) -> Found<'a, GenericArg>
    requires few { spare < 2 ^ 8 }
    requires room { 0 < spare }
    ensures { Gives names.now result (form_in spare parts.one_argument names.now ts.now) }
{
    let first = ahead(names, ts);
    argument_of(alloc, names, spare, first, ts)
}

#[tactic(auto, unfolding(nesc_tree::specs::Reading::read))]
fn another_argument<'a>(
    alloc: Global,
    names: &TypeNames,
    spare: usize,
    so_far: List<GenericArg>,
    ts: &'a [Token],
) -> Found<'a, List<GenericArg>>
    requires few { spare < 2 ^ 8 }
    requires room { 0 < spare }
    ensures { Gives names.now result (form_in spare (grammar.applied so_far parts.another_argument) names.now ts.now) }
{
    let (so_far, (_, rest)) = beside(so_far, expect(names, Sort::Comma, ts))?;
    let (so_far, (next, rest)) = beside(so_far, argument(alloc, names, spare, rest))?;
    Ok((added(so_far, next)?, rest))
}

/// Arguments with commas between them.
#[tactic(auto, unfolding(nesc_tree::specs::Reading::read))]
fn some_arguments<'a>(
    alloc: Global,
    names: &TypeNames,
    spare: usize,
    ts: &'a [Token],
) -> Found<'a, List<GenericArg>>
    requires few { spare < 2 ^ 8 }
    requires room { 0 < spare }
    ensures { Gives names.now result (form_in spare parts.some_arguments names.now ts.now) }
{
    let (first, rest) = argument(alloc, names, spare, ts)?;
    let mut list = single(alloc, first)?;
    let mut rest = rest;
    while is_comma(ahead(names, rest)) {
        let (so_far, behind) = another_argument(alloc, names, spare, list, rest)?;
        list = so_far;
        rest = behind;
    }
    Ok((list, rest))
}

// Whether an argument begins with a token of this sort.
fn begins_argument(first: Sort) -> bool
    ensures { result ≡ parts.begins_argument first }
{
    begins_type(first) || begins_expr(first)
}

/// Arguments, or none.
fn maybe_arguments<'a>(
    alloc: Global,
    names: &TypeNames,
    spare: usize,
    ts: &'a [Token],
) -> Found<'a, List<GenericArg>>
    requires few { spare < 2 ^ 8 }
    requires room { 0 < spare }
    ensures { Gives names.now result (form_in spare parts.maybe_arguments names.now ts.now) }
{
    if begins_argument(ahead(names, ts)) {
        some_arguments(alloc, names, spare, ts)
    } else {
        Ok((no_list(alloc), ts))
    }
}

/// The arguments of a generic component, between parentheses.
#[tactic(auto, unfolding(nesc_tree::specs::Reading::read))]
pub fn arguments<'a>(
    alloc: Global,
    names: &TypeNames,
    spare: usize,
    ts: &'a [Token],
) -> Found<'a, List<GenericArg>>
    requires few { spare < 2 ^ 8 }
    requires room { 0 < spare }
    ensures { Gives names.now result (form_in spare spec.generic_arguments names.now ts.now) }
{
    let (_, rest) = expect(names, Sort::LParen, ts)?;
    let (list, rest) = maybe_arguments(alloc, names, spare, rest)?;
    let (list, (_, rest)) = beside(list, expect(names, Sort::RParen, rest))?;
    Ok((list, rest))
}
