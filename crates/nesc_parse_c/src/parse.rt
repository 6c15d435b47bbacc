//! Reading an expression or a type from a place of a list of tokens.

ghost use Rattle.std.specs.Prelude.{◌≡◌, ◌≤◌, ◌-◌, length, drop, take, Err};
ghost use Rattle.nesc_tree.specs.Phrase.{Phrase};
ghost use Rattle.nesc_tree.specs.Level as levels;
ghost use Rattle.nesc_tree.specs.Reading.{Syntax};
ghost use Rattle.nesc_parse_types.specs.Gives.{Fails};
ghost use Rattle.nesc_parse_c.specs.Parsed as parsed;
ghost use Rattle.nesc_parse_c.specs.Probes.{phrase_of, read_of};

use crate::probes::{LEVELS, Wanted, left_out};
use nesc_parse_exprs::{expr, type_form};
use nesc_parse_types::Stop;
use nesc_tree::{Expr, TypeNames, TypeSpec, level};
use nm_base::{Fault, Limit, MAX_DEPTH, Pos, Refusal, Token, Which};
use std::alloc::Global;

/// The place of the first token that is left, or else of the last token of all, or else the beginning of the file.
fn place_of(file: u32, all: &[Token], rest: &[Token]) -> Pos
    ensures { result ≡ parsed.place file all.now rest.now }
{
    match rest {
        [token, ..] => token.pos,
        [] => match all {
            [.., last] => last.pos,
            [] => Pos {
                file,
                line: 1,
                col: 1,
            },
        },
    }
}

/// The tokens from `at` up to those that are left.
fn before_rest<'a>(ts: &'a [Token], at: usize, rest: &[Token]) -> &'a [Token]
    requires whole { length rest.now ≤ length ts.now }
    requires starts { at ≤ length ts.now - length rest.now }
    ensures { result.now ≡ take (length ts.now - length rest.now - at) (drop at ts.now) }
{
    &ts[at..ts.len() - rest.len()]
}

/// The refusal of the first token that is left: no text goes on with it.
fn refused(
    alloc: Global,
    wanted: Wanted,
    ts: &[Token],
    at: usize,
    names: &TypeNames,
    file: u32,
    rest: &[Token],
) -> Fault
    requires inside { at ≤ length ts.now }
    requires stops { read_of (phrase_of wanted) names.now (drop at ts.now) ≡ Err (Syntax rest.now) }
    ensures { parsed.Fails (phrase_of wanted) file ts.now at names.now result }
{
    let pos = place_of(file, ts, rest);
    match rest {
        [] => Fault::Refused(Refusal::Syntax(pos)),
        [token, ..] => {
            let before = before_rest(ts, at, rest);
            match left_out(alloc, wanted, names, before, token) {
                Err(_) => Fault::NoMemory,
                Ok(None) => Fault::Refused(Refusal::Syntax(pos)),
                Ok(Some(word)) => Fault::Refused(Refusal::LeftOut(pos, word)),
            }
        }
    }
}

/// Why there is no answer.
fn fault_of(
    alloc: Global,
    wanted: Wanted,
    ts: &[Token],
    at: usize,
    names: &TypeNames,
    file: u32,
    stop: Stop<'_>,
) -> Fault
    requires inside { at ≤ length ts.now }
    requires stops { Fails stop (read_of (phrase_of wanted) names.now (drop at ts.now)) }
    ensures { parsed.Fails (phrase_of wanted) file ts.now at names.now result }
{
    match stop {
        Stop::Memory => Fault::NoMemory,
        Stop::Deep(_) => Fault::Limit(Limit {
            which: Which::Depth,
            have: MAX_DEPTH + 1,
        }),
        Stop::Syntax(rest) => refused(alloc, wanted, ts, at, names, file, rest),
    }
}

/// Reads the longest run of tokens from `at` on with which some expression begins, and gives the place behind it.
pub fn parse_expr(
    alloc: Global,
    ts: &[Token],
    at: usize,
    names: &TypeNames,
    file: u32,
) -> Result<(Expr, usize), Fault>
    requires { at ≤ length ts.now }
    ensures { parsed.Parses (Phrase.expr levels.comma) file ts.now at names.now (λ a. a.expr) result }
{
    match expr(alloc, names, LEVELS, level::COMMA, &ts[at..]) {
        Ok((found, rest)) => Ok((found.expr, ts.len() - rest.len())),
        Err(stop) => Err(fault_of(alloc, Wanted::Expr, ts, at, names, file, stop)),
    }
}

/// Reads the longest run of tokens from `at` on with which some type begins, and gives the place behind it.
pub fn parse_type(
    alloc: Global,
    ts: &[Token],
    at: usize,
    names: &TypeNames,
    file: u32,
) -> Result<(TypeSpec, usize), Fault>
    requires { at ≤ length ts.now }
    ensures { parsed.Parses Phrase.type file ts.now at names.now (λ t. t.ty) result }
{
    match type_form(alloc, names, LEVELS, &ts[at..]) {
        Ok((found, rest)) => Ok((found.ty, ts.len() - rest.len())),
        Err(stop) => Err(fault_of(alloc, Wanted::Type, ts, at, names, file, stop)),
    }
}
