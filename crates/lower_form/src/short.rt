//! Whether a program is short.

ghost use Rattle.std.specs.Prelude.{◌≡◌, ◌<◌, ◌^◌, ◌⊎◌, min, true, false};
ghost use Rattle.nesc_core.specs.Nodes.{nodes_of};
ghost use Rattle.nesc_core.specs.View.{program_of, stmt_of, stmts_of};
ghost use Rattle.lower_form.specs.Short as short;
ghost use Rattle.lower_form.specs.Short.{IsShort, stmts_extras};
ghost use Rattle.lower_form.specs.declared.short.TheConstants.{MOST_EXTRAS as most_extras, MOST_NODES as most_nodes};

use nesc_core::{CoreStmt, Program, nodes};
use nm_base::List;

/// The most nodes of a program.
pub const MOST_NODES: u32 = 200_000;

/// The most cases and locals of inlined calls of a program that is short.
pub const MOST_EXTRAS: u32 = 100_000_000;

// The number, or the greatest one where it is larger.
fn counted(n: usize) -> u32
    ensures { result ≡ min n 4294967295 }
{
    u32::try_from(n).unwrap_or(u32::MAX)
}

// The cases and the locals of inlined calls of a statement, or the greatest number where there are more.
#[cycle(extras)]
#[tactic(auto, using(crate::proofs::Extras::extras_switch))]
fn stmt_extras(s: &CoreStmt) -> u32
    ensures { result ≡ min (short.stmt_extras (stmt_of s.now)) 4294967295 }
{
    match s {
        CoreStmt::Block(list) => extras_of_all(list),
        CoreStmt::If(_, a, b) => stmt_extras(a).saturating_add(stmt_extras(b)),
        CoreStmt::Loop { body, .. } | CoreStmt::Atomic(body) => stmt_extras(body),
        CoreStmt::Switch(_, cases, list) => counted(cases.as_slice().len()).saturating_add(
            extras_of_all(list),
        ),
        CoreStmt::Here { count, body, .. } => count.saturating_add(stmt_extras(body)),
        CoreStmt::Eval(_)
        | CoreStmt::Break
        | CoreStmt::Continue
        | CoreStmt::Return(_)
        | CoreStmt::Clear(_) => 0,
    }
}

#[cycle(extras)]
fn extras_of_all(list: &List<CoreStmt>) -> u32
    ensures { result ≡ min (stmts_extras (stmts_of list.now)) 4294967295 }
{
    let mut sum: u32 = 0;
    for s in list.as_slice() {
        sum = sum.saturating_add(stmt_extras(s));
    }
    sum
}

#[tactic(auto, using(crate::proofs::Extras::bodies_extras))]
fn program_extras(p: &Program) -> u32
    ensures { result ≡ min (short.extras_of (program_of p.now)) 4294967295 }
{
    let mut sum: u32 = 0;
    for body in p.bodies.as_slice() {
        sum = sum.saturating_add(stmt_extras(&body.code));
    }
    sum
}

/// Whether labels, checks and places in the code of a program are sure to be numbers of 32 bits: it has at most `MOST_NODES` nodes, and
/// at most `MOST_EXTRAS` cases of switches and locals of inlined calls.
pub fn is_short(p: &Program) -> bool
    requires { nodes_of (program_of p.now) < 2 ^ 32 }
    ensures short { result ≡ true → IsShort (program_of p.now) }
    ensures long { result ≡ false → MOST_NODES < nodes_of (program_of p.now) ⊎ MOST_EXTRAS < short.extras_of (program_of p.now) }
{
    nodes(p) <= MOST_NODES && program_extras(p) <= MOST_EXTRAS
}
