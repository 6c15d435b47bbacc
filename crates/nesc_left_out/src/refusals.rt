//! Why reading a phrase from a place of a list of tokens gives no tree.

ghost use Rattle.std.specs.Prelude.{◌≡◌, ◌≤◌, ◌-◌, suc, true, length, drop, take, Err};
ghost use Rattle.nesc_tree.specs.Phrase.{fits_one_level};
ghost use Rattle.nesc_tree.specs.Reading.{Syntax};
ghost use Rattle.nesc_grammar.specs.Laws.{answer};
ghost use Rattle.nesc_parse_types.specs.Gives.{Fails};
ghost use Rattle.nesc_left_out.specs.Refusals as refusals;

use crate::probes::left_out;
use crate::reader::Reader;
use nesc_parse_types::Stop;
use nesc_tree::TypeNames;
use nm_base::{Fault, Limit, MAX_DEPTH, Pos, Refusal, Token, Which};
use std::alloc::Global;

/// The place of the first token that is left, or else of the last token of all, or else the beginning of the file.
fn place_of(file: u32, all: &[Token], rest: &[Token]) -> Pos
    ensures { result ≡ refusals.place file all.now rest.now }
{
    match rest {
        [token, ..] => token.pos,
        [] => match all {
            [.., last] => last.pos,
            [] => Pos {
                file,
                line: 1,
                col: 1,
            },
        },
    }
}

/// The tokens from `at` up to those that are left.
fn before_rest<'a>(ts: &'a [Token], at: usize, rest: &[Token]) -> &'a [Token]
    requires whole { length rest.now ≤ length ts.now }
    requires starts { at ≤ length ts.now - length rest.now }
    ensures { result.now ≡ take (length ts.now - length rest.now - at) (drop at ts.now) }
{
    &ts[at..ts.len() - rest.len()]
}

/// The refusal of the first token that is left, with which no text goes on: E08 where it begins a form that is left out, or else E07.
/// The names are afterwards what they were.
pub fn refused<R: Reader>(
    reader: &R,
    alloc: Global,
    ts: &[Token],
    at: usize,
    names: &mut TypeNames,
    file: u32,
    rest: &[Token],
) -> Fault
    requires fits { fits_one_level (R.phrase reader.now) ≡ true }
    requires inside { at ≤ length ts.now }
    requires stops { answer (suc (R.spare reader.now)) (R.phrase reader.now) names.old (drop at ts.now) ≡ Err (Syntax rest.now) }
    ensures told { refusals.Fails (suc (R.spare reader.now)) (R.phrase reader.now) file ts.now at names.old result }
    ensures back { names.new ≡ names.old }
{
    let pos = place_of(file, ts, rest);
    match rest {
        [] => Fault::Refused(Refusal::Syntax(pos)),
        [token, ..] => {
            let before = before_rest(ts, at, rest);
            match left_out(reader, alloc, names, before, token) {
                Err(_) => Fault::NoMemory,
                Ok(None) => Fault::Refused(Refusal::Syntax(pos)),
                Ok(Some(word)) => Fault::Refused(Refusal::LeftOut(pos, word)),
            }
        }
    }
}

/// Why there is no tree: a refusal, or the limit of depth. The names are afterwards what they were.
pub fn fault_of<R: Reader>(
    reader: &R,
    alloc: Global,
    ts: &[Token],
    at: usize,
    names: &mut TypeNames,
    file: u32,
    stop: Stop<'_>,
) -> Fault
    requires fits { fits_one_level (R.phrase reader.now) ≡ true }
    requires inside { at ≤ length ts.now }
    requires stops { Fails stop (answer (suc (R.spare reader.now)) (R.phrase reader.now) names.old (drop at ts.now)) }
    ensures told { refusals.Fails (suc (R.spare reader.now)) (R.phrase reader.now) file ts.now at names.old result }
    ensures back { names.new ≡ names.old }
{
    match stop {
        Stop::Memory => Fault::NoMemory,
        Stop::Deep(_) => Fault::Limit(Limit {
            which: Which::Depth,
            have: MAX_DEPTH + 1,
        }),
        Stop::Syntax(rest) => refused(reader, alloc, ts, at, names, file, rest),
    }
}
