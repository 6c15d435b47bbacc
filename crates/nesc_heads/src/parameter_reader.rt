//! Reading parameters; a name is in force from behind its declarator on (C99 6.7.5.3).

ghost use Rattle.std.specs.Prelude.{◌≡◌, ◌<◌, ◌^◌};
ghost use Rattle.nesc_tree.specs.Changes.{all_taken_back};
ghost use Rattle.nesc_grammar.specs.Grammar as grammar;
ghost use Rattle.nesc_grammar.specs.Declarations as spec;
ghost use Rattle.nesc_parse_types.specs.Gives.{Gives, form_in};
ghost use Rattle.nesc_heads.specs.Parts as parts;

use crate::parts::{named, param_of, unnamed, without_void};
use nesc_declarators::stars;
use nesc_parse_decls::{added, no_list, single};
use nesc_parse_exprs::{expr, type_form};
use nesc_parse_types::{Found, Stop, begins_type, expect, is_comma};
use nesc_scopes::hide;
use nesc_tree::{CastType, Change, Expr, Param, Sort, TypeNames, ahead, level, same_sort};
use nm_base::{List, Name, Token, beside};
use std::alloc::Global;

/// A dimension.
#[tactic(auto, unfolding(nesc_tree::specs::Reading::read))]
fn dimension<'a>(alloc: Global, names: &TypeNames, spare: usize, ts: &'a [Token]) -> Found<'a, Expr>
    requires { spare < 2 ^ 8 }
    ensures { Gives names.now result (form_in spare spec.dimension names.now ts.now) }
{
    let (_, rest) = expect(names, Sort::LBracket, ts)?;
    let (size, rest) = expr(alloc, names, spare, level::CONDITIONAL, rest)?;
    let (size, (_, rest)) = beside(size, expect(names, Sort::RBracket, rest))?;
    Ok((size.expr, rest))
}

/// The dimension, where one is there.
#[tactic(auto, unfolding(nesc_tree::specs::Reading::read))]
fn some_dimension<'a>(
    alloc: Global,
    names: &TypeNames,
    spare: usize,
    ts: &'a [Token],
) -> Found<'a, Option<Expr>>
    requires { spare < 2 ^ 8 }
    ensures { Gives names.now result (form_in spare parts.some_dimension names.now ts.now) }
{
    if !same_sort(Sort::LBracket, ahead(names, ts)) {
        return Ok((None, ts));
    }
    if spare == 0 {
        return Err(Stop::Deep(ts));
    }
    let (size, rest) = dimension(alloc, names, spare, ts)?;
    Ok((Some(size), rest))
}

/// A parameter's name, which is of this sort, and its dimension.
#[tactic(auto, unfolding(nesc_tree::specs::Reading::read))]
fn named_parameter<'a>(
    alloc: Global,
    names: &mut TypeNames,
    changes: &mut Vec<Change>,
    spare: usize,
    sort: Sort,
    ts: &'a [Token],
) -> Found<'a, (Option<Name>, List<Expr>)>
    requires { spare < 2 ^ 8 }
    ensures gives { Gives names.new result (form_in spare (parts.named_parameter sort) names.old ts.now) }
    ensures noted { all_taken_back changes.new.items names.new ≡ all_taken_back changes.old.items names.old }
{
    let (token, rest) = expect(names, sort, ts)?;
    let (size, rest) = some_dimension(alloc, names, spare, rest)?;
    let (size, ()) = beside(size, hide(names, changes, &token.text))?;
    Ok((named(alloc, token, size)?, rest))
}

#[tactic(auto, unfolding(nesc_tree::specs::Reading::read))]
fn unnamed_parameter<'a>(
    alloc: Global,
    names: &TypeNames,
    spare: usize,
    ts: &'a [Token],
) -> Found<'a, (Option<Name>, List<Expr>)>
    requires { spare < 2 ^ 8 }
    ensures { Gives names.now result (form_in spare parts.unnamed_parameter names.now ts.now) }
{
    let (size, rest) = some_dimension(alloc, names, spare, ts)?;
    Ok((unnamed(alloc, size)?, rest))
}

/// What is behind the type and the stars of a parameter.
fn parameter<'a>(
    alloc: Global,
    names: &mut TypeNames,
    changes: &mut Vec<Change>,
    spare: usize,
    ts: &'a [Token],
) -> Found<'a, (Option<Name>, List<Expr>)>
    requires { spare < 2 ^ 8 }
    ensures gives { Gives names.new result (form_in spare parts.parameter names.old ts.now) }
    ensures noted { all_taken_back changes.new.items names.new ≡ all_taken_back changes.old.items names.old }
{
    match ahead(names, ts) {
        Sort::Word => named_parameter(alloc, names, changes, spare, Sort::Word, ts),
        Sort::TypeName => named_parameter(alloc, names, changes, spare, Sort::TypeName, ts),
        _ => unnamed_parameter(alloc, names, spare, ts),
    }
}

#[tactic(auto, unfolding(nesc_tree::specs::Reading::read))]
fn param_end<'a>(
    alloc: Global,
    names: &mut TypeNames,
    changes: &mut Vec<Change>,
    spare: usize,
    shared: CastType,
    ts: &'a [Token],
) -> Found<'a, Param>
    requires { spare < 2 ^ 8 }
    ensures gives { Gives names.new result (form_in spare (grammar.applied shared parts.param_end) names.old ts.now) }
    ensures noted { all_taken_back changes.new.items names.new ≡ all_taken_back changes.old.items names.old }
{
    let (shared, (stars, rest)) = beside(shared, stars(names, spare, ts))?;
    let (shared, (found, rest)) = beside(shared, parameter(alloc, names, changes, spare, rest))?;
    Ok((param_of(shared, stars, found), rest))
}

#[tactic(auto, unfolding(nesc_tree::specs::Reading::read))]
fn joined_param<'a>(
    alloc: Global,
    names: &mut TypeNames,
    changes: &mut Vec<Change>,
    spare: usize,
    ts: &'a [Token],
) -> Found<'a, Param>
    requires { spare < 2 ^ 8 }
    ensures gives { Gives names.new result (form_in spare parts.joined_param names.old ts.now) }
    ensures noted { all_taken_back changes.new.items names.new ≡ all_taken_back changes.old.items names.old }
{
    let (shared, rest) = type_form(alloc, names, spare, ts)?;
    param_end(alloc, names, changes, spare, shared, rest)
}

/// A parameter.
fn param<'a>(
    alloc: Global,
    names: &mut TypeNames,
    changes: &mut Vec<Change>,
    spare: usize,
    ts: &'a [Token],
) -> Found<'a, Param>
    requires { spare < 2 ^ 8 }
    ensures gives { Gives names.new result (form_in spare spec.param names.old ts.now) }
    ensures noted { all_taken_back changes.new.items names.new ≡ all_taken_back changes.old.items names.old }
{
    joined_param(alloc, names, changes, spare, ts)
}

#[tactic(auto, unfolding(nesc_tree::specs::Reading::read))]
fn another_param<'a>(
    alloc: Global,
    names: &mut TypeNames,
    changes: &mut Vec<Change>,
    spare: usize,
    so_far: List<Param>,
    ts: &'a [Token],
) -> Found<'a, List<Param>>
    requires { spare < 2 ^ 8 }
    ensures gives { Gives names.new result (form_in spare (grammar.applied so_far parts.another_param) names.old ts.now) }
    ensures noted { all_taken_back changes.new.items names.new ≡ all_taken_back changes.old.items names.old }
{
    let (so_far, (_, rest)) = beside(so_far, expect(names, Sort::Comma, ts))?;
    let (so_far, (next, rest)) = beside(so_far, param(alloc, names, changes, spare, rest))?;
    Ok((added(so_far, next)?, rest))
}

/// Parameters with commas between them.
#[tactic(auto, unfolding(nesc_tree::specs::Reading::read))]
fn some_params<'a>(
    alloc: Global,
    names: &mut TypeNames,
    changes: &mut Vec<Change>,
    spare: usize,
    ts: &'a [Token],
) -> Found<'a, List<Param>>
    requires { spare < 2 ^ 8 }
    ensures gives { Gives names.new result (form_in spare parts.some_params names.old ts.now) }
    ensures noted { all_taken_back changes.new.items names.new ≡ all_taken_back changes.old.items names.old }
{
    let (first, rest) = param(alloc, names, changes, spare, ts)?;
    let mut list = single(alloc, first)?;
    let mut rest = rest;
    while is_comma(ahead(names, rest)) {
        let (so_far, behind) = another_param(alloc, names, changes, spare, list, rest)?;
        list = so_far;
        rest = behind;
    }
    Ok((list, rest))
}

fn maybe_params<'a>(
    alloc: Global,
    names: &mut TypeNames,
    changes: &mut Vec<Change>,
    spare: usize,
    ts: &'a [Token],
) -> Found<'a, List<Param>>
    requires { spare < 2 ^ 8 }
    ensures gives { Gives names.new result (form_in spare parts.maybe_params names.old ts.now) }
    ensures noted { all_taken_back changes.new.items names.new ≡ all_taken_back changes.old.items names.old }
{
    if begins_type(ahead(names, ts)) {
        some_params(alloc, names, changes, spare, ts)
    } else {
        Ok((no_list(alloc), ts))
    }
}

#[tactic(auto, unfolding(nesc_tree::specs::Reading::read))]
fn bracketed_params<'a>(
    alloc: Global,
    names: &mut TypeNames,
    changes: &mut Vec<Change>,
    spare: usize,
    ts: &'a [Token],
) -> Found<'a, List<Param>>
    requires { spare < 2 ^ 8 }
    ensures gives { Gives names.new result (form_in spare parts.bracketed_params names.old ts.now) }
    ensures noted { all_taken_back changes.new.items names.new ≡ all_taken_back changes.old.items names.old }
{
    let (_, rest) = expect(names, Sort::LParen, ts)?;
    let (list, rest) = maybe_params(alloc, names, changes, spare, rest)?;
    let (list, (_, rest)) = beside(list, expect(names, Sort::RParen, rest))?;
    Ok((list, rest))
}

/// The parameters of a function, between their parentheses; their names are in force behind them.
#[tactic(auto, unfolding(nesc_tree::specs::Reading::read))]
pub fn parameters<'a>(
    alloc: Global,
    names: &mut TypeNames,
    changes: &mut Vec<Change>,
    spare: usize,
    ts: &'a [Token],
) -> Found<'a, List<Param>>
    requires { spare < 2 ^ 8 }
    ensures gives { Gives names.new result (form_in spare spec.parameters names.old ts.now) }
    ensures noted { all_taken_back changes.new.items names.new ≡ all_taken_back changes.old.items names.old }
{
    let (list, rest) = bracketed_params(alloc, names, changes, spare, ts)?;
    Ok((without_void(alloc, list), rest))
}
