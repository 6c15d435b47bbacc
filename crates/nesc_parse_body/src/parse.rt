//! Reading a statement from a place of a list of tokens.

ghost use Rattle.std.specs.Prelude.{◌≡◌, ◌≤◌, IfOk, length};
ghost use Rattle.nesc_grammar.specs.Laws.{answer};
ghost use Rattle.nesc_left_out.specs.Probes.{is_ended};
ghost use Rattle.nesc_parse_body.specs.Parsed as parsed;
ghost use Rattle.nesc_parse_body.specs.Parsed.{body, most};

use nesc_left_out::{Reader, fault_of, is_ended};
use nesc_parse_stmts::stmt;
use nesc_tree::{Jumps, Stmt, TypeNames};
use nm_base::{Fault, MAX_DEPTH, NoMemory, Token};
use std::alloc::Global;

/// The greatest number of levels of a statement.
const LEVELS: usize = MAX_DEPTH as usize;

// Whether reading a statement comes to the last of these tokens.
fn reads_statement(alloc: Global, names: &mut TypeNames, ts: &[Token]) -> Result<bool, NoMemory>
    ensures told { IfOk result (λ b. b ≡ is_ended (answer most body names.old ts.now)) }
    ensures back { names.new ≡ names.old }
{
    is_ended(stmt(alloc, names, LEVELS, Jumps::Neither, ts))
}

/// A statement that stands in no loop and no `switch`.
#[derive(Clone, Copy)]
struct Statement;

impl Reader for Statement {
    ghost use Rattle.nesc_parse_body.specs.Parsed.{body, spare};

    ghost phrase = { λ r. body };

    ghost spare = { λ r. spare };

    fn reads_all(
        &self,
        alloc: Global,
        names: &mut TypeNames,
        ts: &[Token],
    ) -> Result<bool, NoMemory> {
        reads_statement(alloc, names, ts)
    }
}

/// Reads the longest run of tokens from `at` on with which some statement begins, and gives the place behind it.
/// E07 or E08 comes where no statement spells this run, at the token behind it; Limit(Depth) where a statement has more than 200 levels.
/// The names are afterwards what they were.
pub fn parse_body(
    alloc: Global,
    ts: &[Token],
    at: usize,
    names: &mut TypeNames,
    file: u32,
) -> Result<(Stmt, usize), Fault>
    requires { at ≤ length ts.now }
    ensures parsed { parsed.Parses file ts.now at names.old result }
    ensures back { names.new ≡ names.old }
{
    match stmt(alloc, names, LEVELS, Jumps::Neither, &ts[at..]) {
        Ok((tree, rest)) => Ok((tree, ts.len() - rest.len())),
        Err(stop) => Err(fault_of(&Statement, alloc, ts, at, names, file, stop)),
    }
}
