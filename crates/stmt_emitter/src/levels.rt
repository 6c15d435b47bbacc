//! The levels of statements: how many pairs of values their code takes; and atomic statements in one another.

ghost use Rattle.std.specs.Prelude.{◌≡◌, ◌+◌, ◌<◌, ◌^◌};
ghost use Rattle.nesc_core.specs.View.{exprs_of, maybe_expr_of, stmt_of, stmts_of};
ghost use Rattle.nesc_core.specs.Weights as weights;

use expr_emitter::levels::expr_levels;
use nesc_core::{CoreExpr, CoreStmt};
use nm_base::List;

// The greatest levels of arguments.
fn greatest(args: &List<CoreExpr>) -> u32
    requires { weights.greatest_levels (exprs_of args.now) < 2 ^ 32 }
    ensures { result ≡ weights.greatest_levels (exprs_of args.now) }
{
    let mut most = 0;
    for arg in args.as_slice() {
        most = expr_levels(arg).max(most);
    }
    most
}

fn maybe_levels(e: &Option<CoreExpr>) -> u32
    requires { weights.maybe_levels (maybe_expr_of e.now) < 2 ^ 32 }
    ensures { result ≡ weights.maybe_levels (maybe_expr_of e.now) }
{
    match e {
        None => 0,
        Some(e) => expr_levels(e),
    }
}

/// The greatest levels of an expression in a statement.
#[cycle(stmt_levels)]
#[tactic(auto, using(crate::proofs::Switches::levels_switch, crate::proofs::Switches::nodes_switch))]
pub(crate) fn stmt_levels(s: &CoreStmt) -> u32
    requires { weights.stmt_levels (stmt_of s.now) < 2 ^ 32 }
    ensures { result ≡ weights.stmt_levels (stmt_of s.now) }
{
    match s {
        CoreStmt::Eval(e) => expr_levels(e),
        CoreStmt::Block(list) => levels_of_all(list),
        CoreStmt::If(test, a, b) => expr_levels(test).max(stmt_levels(a).max(stmt_levels(b))),
        CoreStmt::Loop {
            test,
            step,
            body,
            ..
        } => expr_levels(test).max(maybe_levels(step).max(stmt_levels(body))),
        CoreStmt::Switch(e, _, list) => expr_levels(e).max(levels_of_all(list)),
        CoreStmt::Return(e) => maybe_levels(e),
        CoreStmt::Atomic(body) => stmt_levels(body),
        CoreStmt::Here { args, body, .. } => greatest(args).max(stmt_levels(body)),
        CoreStmt::Break | CoreStmt::Continue | CoreStmt::Clear(_) => 0,
    }
}

#[cycle(stmt_levels)]
fn levels_of_all(list: &List<CoreStmt>) -> u32
    requires { weights.stmts_levels (stmts_of list.now) < 2 ^ 32 }
    ensures { result ≡ weights.stmts_levels (stmts_of list.now) }
{
    let mut most = 0;
    for s in list.as_slice() {
        most = stmt_levels(s).max(most);
    }
    most
}

/// The atomic statements on the deepest nesting of them.
#[cycle(stmt_atomics)]
#[tactic(auto, using(crate::proofs::Switches::atomics_switch))]
pub(crate) fn stmt_atomics(s: &CoreStmt) -> u16
    requires { weights.stmt_atomics (stmt_of s.now) < 2 ^ 16 }
    ensures { result ≡ weights.stmt_atomics (stmt_of s.now) }
{
    match s {
        CoreStmt::Block(list) => atomics_of_all(list),
        CoreStmt::If(_, a, b) => stmt_atomics(a).max(stmt_atomics(b)),
        CoreStmt::Loop { body, .. } => stmt_atomics(body),
        CoreStmt::Switch(_, _, list) => atomics_of_all(list),
        CoreStmt::Atomic(body) => 1 + stmt_atomics(body),
        CoreStmt::Here { body, .. } => stmt_atomics(body),
        CoreStmt::Eval(_)
        | CoreStmt::Break
        | CoreStmt::Continue
        | CoreStmt::Return(_)
        | CoreStmt::Clear(_) => 0,
    }
}

#[cycle(stmt_atomics)]
fn atomics_of_all(list: &List<CoreStmt>) -> u16
    requires { weights.stmts_atomics (stmts_of list.now) < 2 ^ 16 }
    ensures { result ≡ weights.stmts_atomics (stmts_of list.now) }
{
    let mut most = 0;
    for s in list.as_slice() {
        most = stmt_atomics(s).max(most);
    }
    most
}
