//! Reading the wires of a configuration (nesC 1.3 Reference).

ghost use Rattle.std.specs.Prelude.{◌≡◌, ◌<◌, ◌^◌};
ghost use Rattle.nesc_grammar.specs.Grammar as grammar;
ghost use Rattle.nesc_grammar.specs.Components as spec;
ghost use Rattle.nesc_parse_types.specs.Gives.{Gives, form_in};
ghost use Rattle.nesc_configurations.specs.Parts as parts;
ghost use Rattle.nesc_configurations.specs.Reads as reads;

use crate::parts::{end_of, wire_of};
use nesc_heads::some_item_name;
use nesc_parse_exprs::expr;
use nesc_parse_types::{Found, Stop, expect, name};
use nesc_tree::{ConfLine, Operand, Sort, TypeNames, WireEnd, ahead, level};
use nm_base::{List, Token, beside};
use std::alloc::Global;

#[tactic(auto, unfolding(nesc_tree::specs::Reading::read))]
fn found_bracket<'a>(
    alloc: Global,
    names: &TypeNames,
    spare: usize,
    ts: &'a [Token],
) -> Found<'a, Option<Operand>>
    requires { spare < 2 ^ 8 }
    ensures { Gives names.now result (form_in spare parts.found_bracket names.now ts.now) }
{
    let (_, rest) = expect(names, Sort::LBracket, ts)?;
    let (found, rest) = expr(alloc, names, spare, level::CONDITIONAL, rest)?;
    let (found, (_, rest)) = beside(found, expect(names, Sort::RBracket, rest))?;
    Ok((Some(found), rest))
}

/// The value of a parameter, where its bracket is there.
fn end_bracket<'a>(
    alloc: Global,
    names: &TypeNames,
    spare: usize,
    ts: &'a [Token],
) -> Found<'a, Option<Operand>>
    requires few { spare < 2 ^ 8 }
    requires room { 0 < spare }
    ensures { Gives names.now result (form_in spare parts.end_bracket names.now ts.now) }
{
    match ahead(names, ts) {
        Sort::LBracket => found_bracket(alloc, names, spare, ts),
        _ => Ok((None, ts)),
    }
}

fn read_end_rest<'a>(
    alloc: Global,
    names: &TypeNames,
    spare: usize,
    first: &Token,
    ts: &'a [Token],
) -> Found<'a, WireEnd>
    requires few { spare < 2 ^ 8 }
    requires room { 0 < spare }
    ensures { Gives names.now result (reads.end_rest spare first.now names.now ts.now) }
{
    let (second, rest) = some_item_name(names, ts)?;
    let (param, rest) = end_bracket(alloc, names, spare, rest)?;
    Ok((end_of(alloc, first, second, param)?, rest))
}

/// An end of a wire, from behind its first name.
fn end_rest<'a>(
    alloc: Global,
    names: &TypeNames,
    spare: usize,
    first: &Token,
    ts: &'a [Token],
) -> Found<'a, WireEnd>
    requires few { spare < 2 ^ 8 }
    requires room { 0 < spare }
    ensures { Gives names.now result (form_in spare (grammar.applied first.now spec.end_rest) names.now ts.now) }
{
    read_end_rest(alloc, names, spare, first, ts)
}

/// An end of a wire.
#[tactic(auto, unfolding(nesc_tree::specs::Reading::read))]
fn wire_end<'a>(
    alloc: Global,
    names: &TypeNames,
    spare: usize,
    ts: &'a [Token],
) -> Found<'a, WireEnd>
    requires few { spare < 2 ^ 8 }
    requires room { 0 < spare }
    ensures { Gives names.now result (form_in spare spec.end names.now ts.now) }
{
    let (first, rest) = name(names, ts)?;
    end_rest(alloc, names, spare, first, rest)
}

#[tactic(auto, unfolding(nesc_tree::specs::Reading::read))]
fn last_end<'a>(
    alloc: Global,
    names: &TypeNames,
    spare: usize,
    ts: &'a [Token],
) -> Found<'a, WireEnd>
    requires few { spare < 2 ^ 8 }
    requires room { 0 < spare }
    ensures { Gives names.now result (form_in spare parts.last_end names.now ts.now) }
{
    let (found, rest) = wire_end(alloc, names, spare, ts)?;
    let (found, (_, rest)) = beside(found, expect(names, Sort::Semi, rest))?;
    Ok((found, rest))
}

// Whether a token of this sort joins two ends.
fn is_joint(sort: Sort) -> bool
    ensures { result ≡ spec.is_joint sort }
{
    matches!(sort, Sort::Arrow | Sort::BackArrow | Sort::Assign)
}

// The second end, behind a joint of this sort.
#[tactic(auto, unfolding(nesc_tree::specs::Reading::read))]
fn behind_joint<'a>(
    alloc: Global,
    names: &TypeNames,
    spare: usize,
    joint: Sort,
    ts: &'a [Token],
) -> Found<'a, WireEnd>
    requires few { spare < 2 ^ 8 }
    requires room { 0 < spare }
    ensures { Gives names.now result (form_in spare (parts.behind_joint joint) names.now ts.now) }
{
    if !is_joint(joint) {
        return Err(Stop::Syntax(ts));
    }
    let (_, rest) = expect(names, joint, ts)?;
    last_end(alloc, names, spare, rest)
}

fn read_wire<'a>(
    alloc: Global,
    names: &TypeNames,
    spare: usize,
    first: &Token,
    ts: &'a [Token],
) -> Found<'a, List<ConfLine>>
    requires few { spare < 2 ^ 8 }
    requires room { 0 < spare }
    ensures { Gives names.now result (reads.wire spare first.now names.now ts.now) }
{
    let (before, rest) = end_rest(alloc, names, spare, first, ts)?;
    let joint = ahead(names, rest);
    let (before, (behind, rest)) = beside(before, behind_joint(alloc, names, spare, joint, rest))?;
    Ok((wire_of(alloc, joint, before, behind, first.pos)?, rest))
}

/// A wire, from behind the first name of its first end.
pub fn wire_rest<'a>(
    alloc: Global,
    names: &TypeNames,
    spare: usize,
    first: &Token,
    ts: &'a [Token],
) -> Found<'a, List<ConfLine>>
    requires few { spare < 2 ^ 8 }
    requires room { 0 < spare }
    ensures { Gives names.now result (form_in spare (grammar.applied first.now spec.wire_rest) names.now ts.now) }
{
    read_wire(alloc, names, spare, first, ts)
}

/// A wire whose first name is no type name.
#[tactic(auto, unfolding(nesc_tree::specs::Reading::read))]
pub fn word_line<'a>(
    alloc: Global,
    names: &TypeNames,
    spare: usize,
    ts: &'a [Token],
) -> Found<'a, List<ConfLine>>
    requires few { spare < 2 ^ 8 }
    requires room { 0 < spare }
    ensures { Gives names.now result (form_in spare parts.word_line names.now ts.now) }
{
    let (first, rest) = expect(names, Sort::Word, ts)?;
    wire_rest(alloc, names, spare, first, rest)
}
