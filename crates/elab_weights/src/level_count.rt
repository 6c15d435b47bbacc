//! The levels of expressions in statements, and atomic statements in one another.

ghost use Rattle.std.specs.Prelude.{◌≡◌};
ghost use Rattle.elab_weights.specs.Bounded.{bounded};
ghost use Rattle.nesc_core.specs.View.{expr_of, exprs_of, maybe_expr_of, stmt_of, stmts_of};
ghost use Rattle.nesc_core.specs.Weights as weights;

use crate::bound::bounded;
use nesc_core::{CoreExpr, CoreStmt, expr_levels};
use nm_base::List;

fn levels_of(e: &CoreExpr) -> u32
    ensures { result ≡ bounded (weights.expr_levels (expr_of e.now)) }
{
    bounded(expr_levels(e))
}

fn maybe_levels(e: &Option<CoreExpr>) -> u32
    ensures { result ≡ bounded (weights.maybe_levels (maybe_expr_of e.now)) }
{
    match e {
        None => 0,
        Some(e) => levels_of(e),
    }
}

// The greatest levels of arguments.
fn greatest(args: &List<CoreExpr>) -> u32
    ensures { result ≡ bounded (weights.greatest_levels (exprs_of args.now)) }
{
    let mut most = 0;
    for arg in args.as_slice() {
        most = levels_of(arg).max(most);
    }
    most
}

/// The greatest levels of an expression in the statement, up to the bound.
#[cycle(levels)]
#[tactic(auto, using(crate::proofs::Trees::levels))]
pub fn levels(s: &CoreStmt) -> u32
    ensures { result ≡ bounded (weights.stmt_levels (stmt_of s.now)) }
{
    match s {
        CoreStmt::Eval(e) => levels_of(e),
        CoreStmt::Block(list) => levels_of_all(list),
        CoreStmt::If(test, a, b) => levels_of(test).max(levels(a).max(levels(b))),
        CoreStmt::Loop {
            test,
            step,
            body,
            ..
        } => levels_of(test).max(maybe_levels(step).max(levels(body))),
        CoreStmt::Switch(e, _, list) => levels_of(e).max(levels_of_all(list)),
        CoreStmt::Return(e) => maybe_levels(e),
        CoreStmt::Atomic(body) => levels(body),
        CoreStmt::Here { args, body, .. } => greatest(args).max(levels(body)),
        CoreStmt::Break | CoreStmt::Continue | CoreStmt::Clear(_) => 0,
    }
}

#[cycle(levels)]
#[tactic(auto, using(crate::proofs::Trees::levels))]
fn levels_of_all(list: &List<CoreStmt>) -> u32
    ensures { result ≡ bounded (weights.stmts_levels (stmts_of list.now)) }
{
    let mut most = 0;
    for s in list.as_slice() {
        most = levels(s).max(most);
    }
    most
}

/// The atomic statements on the deepest nesting of them, up to the bound.
#[cycle(nested_atomics)]
#[tactic(auto, using(crate::proofs::Trees::levels))]
pub fn nested_atomics(s: &CoreStmt) -> u32
    ensures { result ≡ bounded (weights.stmt_atomics (stmt_of s.now)) }
{
    match s {
        CoreStmt::Block(list) => atomics_of_all(list),
        CoreStmt::If(_, a, b) => nested_atomics(a).max(nested_atomics(b)),
        CoreStmt::Loop { body, .. } => nested_atomics(body),
        CoreStmt::Switch(_, _, list) => atomics_of_all(list),
        CoreStmt::Atomic(body) => bounded(1 + nested_atomics(body)),
        CoreStmt::Here { body, .. } => nested_atomics(body),
        CoreStmt::Eval(_)
        | CoreStmt::Break
        | CoreStmt::Continue
        | CoreStmt::Return(_)
        | CoreStmt::Clear(_) => 0,
    }
}

#[cycle(nested_atomics)]
#[tactic(auto, using(crate::proofs::Trees::levels))]
fn atomics_of_all(list: &List<CoreStmt>) -> u32
    ensures { result ≡ bounded (weights.stmts_atomics (stmts_of list.now)) }
{
    let mut most = 0;
    for s in list.as_slice() {
        most = nested_atomics(s).max(most);
    }
    most
}
