//! Reading declarators: stars, a name, dimensions (C99 6.7.5).

ghost use Rattle.std.specs.Prelude.{◌≡◌, ◌≤◌, ◌<◌, ◌^◌, IfOk};
ghost use Rattle.nesc_grammar.specs.Grammar as grammar;
ghost use Rattle.nesc_grammar.specs.Declarations as spec;
ghost use Rattle.nesc_parse_types.specs.Gives.{Gives, form_in};
ghost use Rattle.nesc_declarators.specs.Parts as parts;

use crate::parts::{more_dims, no_dims, plain_variable};
use nesc_parse_exprs::expr;
use nesc_parse_types::{Found, Stop, expect, name};
use nesc_tree::{Dims, Operand, Sort, TypeNames, Variable, ahead, level, same_sort};
use nm_base::{Token, beside};
use std::alloc::Global;

/// The stars before the next token; each is a level below the one before it (C99 6.7.5.1).
pub fn stars<'a>(names: &TypeNames, spare: usize, ts: &'a [Token]) -> Found<'a, u8>
    requires { spare < 2 ^ 8 }
    ensures gives { Gives names.now result (form_in spare grammar.stars names.now ts.now) }
    ensures fits { IfOk result (λ x. x.0 ≤ spare) }
{
    if !same_sort(Sort::Star, ahead(names, ts)) {
        return Ok((0, ts));
    }
    if spare == 0 {
        return Err(Stop::Deep(ts));
    }
    let (_, rest) = expect(names, Sort::Star, ts)?;
    let (behind, rest) = stars(names, spare - 1, rest)?;
    Ok((behind + 1, rest))
}

fn is_bracket(sort: Sort) -> bool
    ensures { result ≡ grammar.is_bracket sort }
{
    matches!(sort, Sort::LBracket)
}

/// The size of a dimension, in its brackets.
#[tactic(auto, unfolding(nesc_tree::specs::Reading::read))]
fn dim_size<'a>(
    alloc: Global,
    names: &TypeNames,
    spare: usize,
    ts: &'a [Token],
) -> Found<'a, Operand>
    requires { spare < 2 ^ 8 }
    ensures { Gives names.now result (form_in spare parts.dim_size names.now ts.now) }
{
    let (_, rest) = expect(names, Sort::LBracket, ts)?;
    let (size, rest) = expr(alloc, names, spare, level::CONDITIONAL, rest)?;
    let (size, (_, rest)) = beside(size, expect(names, Sort::RBracket, rest))?;
    Ok((size, rest))
}

#[tactic(auto, unfolding(nesc_tree::specs::Reading::read))]
fn another_dim<'a>(
    alloc: Global,
    names: &TypeNames,
    spare: usize,
    so_far: Dims,
    ts: &'a [Token],
) -> Found<'a, Dims>
    requires { spare < 2 ^ 8 }
    ensures { Gives names.now result (form_in spare (grammar.applied so_far grammar.another_dim) names.now ts.now) }
{
    let (so_far, (size, rest)) = beside(so_far, dim_size(alloc, names, spare, ts))?;
    Ok((more_dims(so_far, size)?, rest))
}

/// The dimensions of an array.
#[tactic(auto, unfolding(nesc_tree::specs::Reading::read))]
pub fn dims<'a>(alloc: Global, names: &TypeNames, spare: usize, ts: &'a [Token]) -> Found<'a, Dims>
    requires { spare < 2 ^ 8 }
    ensures { Gives names.now result (form_in spare grammar.dims names.now ts.now) }
{
    let mut dims = no_dims(alloc);
    let mut rest = ts;
    while is_bracket(ahead(names, rest)) {
        if spare == 0 {
            return Err(Stop::Deep(rest));
        }
        let (so_far, behind) = another_dim(alloc, names, spare, dims, rest)?;
        dims = so_far;
        rest = behind;
    }
    Ok((dims, rest))
}

/// A declarator.
#[tactic(auto, unfolding(nesc_tree::specs::Reading::read))]
pub fn declarator<'a>(
    alloc: Global,
    names: &TypeNames,
    spare: usize,
    ts: &'a [Token],
) -> Found<'a, Variable>
    requires { spare < 2 ^ 8 }
    ensures { Gives names.now result (form_in spare spec.plain_variable names.now ts.now) }
{
    let (stars, rest) = stars(names, spare, ts)?;
    let (token, rest) = name(names, rest)?;
    let (dims, rest) = dims(alloc, names, spare, rest)?;
    Ok((plain_variable(alloc, token, dims, stars)?, rest))
}
