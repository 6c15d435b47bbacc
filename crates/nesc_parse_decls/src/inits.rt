//! Reading initialisers (C99 6.7.8).

ghost use Rattle.std.specs.Prelude.{◌≡◌, ◌<◌, ◌^◌};
ghost use Rattle.nesc_tree.specs.Form.{goes};
ghost use Rattle.nesc_grammar.specs.Grammar as grammar;
ghost use Rattle.nesc_grammar.specs.Declarations as spec;
ghost use Rattle.nesc_parse_types.specs.Gives.{Gives, form_in};
ghost use Rattle.nesc_parse_decls.specs.Inits.{begins_init, braces_in};

use crate::parts::{first_init, many_inits, more_inits, one_init};
use nesc_operands::precedence::begins_expr;
use nesc_parse_exprs::{expr, refused};
use nesc_parse_types::{Found, Stop, expect, is_comma};
use nesc_tree::{Init, Inits, Sort, TypeNames, ahead, level, same_sort};
use nm_base::{Token, beside};
use std::alloc::Global;

/// Whether an initialiser begins with a token of this sort.
pub fn begins_init(first: Sort) -> bool
    ensures { result ≡ begins_init first }
{
    match first {
        Sort::LBrace => true,
        _ => begins_expr(first),
    }
}

// Whether a comma may go on the initialisers.
fn goes_on(so_far: &Inits, sort: Sort) -> bool
    ensures { result ≡ goes grammar.is_comma spec.is_open so_far.now sort }
{
    is_comma(sort) && !so_far.ended
}

/// An initialiser with at most `spare` levels.
#[cycle(braces)]
pub fn init<'a>(alloc: Global, names: &TypeNames, spare: usize, ts: &'a [Token]) -> Found<'a, Init>
    requires { spare < 2 ^ 8 }
    ensures { Gives names.now result (form_in spare spec.init names.now ts.now) }
{
    match ahead(names, ts) {
        Sort::LBrace => braces(alloc, names, spare, ts),
        _ => {
            let (value, rest) = expr(alloc, names, spare, level::ASSIGNMENT, ts)?;
            Ok((one_init(value), rest))
        }
    }
}

/// The initialiser behind a comma, where one is there.
#[cycle(braces)]
fn next_init<'a>(
    alloc: Global,
    names: &TypeNames,
    spare: usize,
    ts: &'a [Token],
) -> Found<'a, Option<Init>>
    requires few { spare < 2 ^ 8 }
    requires room { 0 < spare }
    ensures { Gives names.now result (form_in spare (spec.some spec.init) names.now ts.now) }
{
    if begins_init(ahead(names, ts)) {
        let (found, rest) = init(alloc, names, spare, ts)?;
        Ok((Some(found), rest))
    } else {
        Ok((None, ts))
    }
}

#[cycle(braces)]
#[tactic(auto, unfolding(nesc_tree::specs::Reading::read))]
fn another_init<'a>(
    alloc: Global,
    names: &TypeNames,
    spare: usize,
    so_far: Inits,
    ts: &'a [Token],
) -> Found<'a, Inits>
    requires few { spare < 2 ^ 8 }
    requires room { 0 < spare }
    ensures { Gives names.now result (form_in spare (grammar.applied so_far spec.another_init) names.now ts.now) }
{
    let (so_far, (_, rest)) = beside(so_far, expect(names, Sort::Comma, ts))?;
    let (so_far, (next, rest)) = beside(so_far, next_init(alloc, names, spare, rest))?;
    Ok((more_inits(so_far, next)?, rest))
}

/// Initialisers with commas between them, and maybe one behind them.
#[cycle(braces)]
#[tactic(auto, unfolding(nesc_tree::specs::Reading::read))]
fn inits<'a>(alloc: Global, names: &TypeNames, spare: usize, ts: &'a [Token]) -> Found<'a, Inits>
    requires few { spare < 2 ^ 8 }
    requires room { 0 < spare }
    ensures { Gives names.now result (form_in spare spec.inits names.now ts.now) }
{
    let (first, rest) = init(alloc, names, spare, ts)?;
    let mut list = first_init(alloc, first)?;
    let mut rest = rest;
    while goes_on(&list, ahead(names, rest)) {
        let (so_far, behind) = another_init(alloc, names, spare, list, rest)?;
        list = so_far;
        rest = behind;
    }
    Ok((list, rest))
}

#[cycle(braces)]
#[tactic(auto, unfolding(nesc_tree::specs::Reading::read))]
fn braced_inits<'a>(
    alloc: Global,
    names: &TypeNames,
    spare: usize,
    ts: &'a [Token],
) -> Found<'a, Init>
    requires few { spare < 2 ^ 8 }
    requires room { 0 < spare }
    ensures { Gives names.now result (form_in spare spec.braced_inits names.now ts.now) }
{
    let (_, rest) = expect(names, Sort::LBrace, ts)?;
    let (list, rest) = inits(alloc, names, spare, rest)?;
    let (list, (_, rest)) = beside(list, expect(names, Sort::RBrace, rest))?;
    Ok((many_inits(list), rest))
}

/// Initialisers between braces, with at most `levels` levels; they have two at least.
#[cycle(braces)]
pub fn braces<'a>(
    alloc: Global,
    names: &TypeNames,
    levels: usize,
    ts: &'a [Token],
) -> Found<'a, Init>
    requires { levels < 2 ^ 8 }
    ensures { Gives names.now result (braces_in levels names.now ts.now) }
{
    if levels < 2 {
        return Err(refused(same_sort(Sort::LBrace, ahead(names, ts)), ts));
    }
    braced_inits(alloc, names, levels - 1, ts)
}
