//! How large and how deep bodies are.

ghost use Rattle.std.specs.Prelude.{◌≡◌, ◌≤◌, ◌+◌, ◌*◌, IfSome};
ghost use Rattle.nesc_core.specs.Nodes as nodes;
ghost use Rattle.nesc_core.specs.View.{expr_of, exprs_of, maybe_expr_of, place_of, stmt_of, stmts_of};
ghost use Rattle.nesc_core.specs.Weights as weights;

use nesc_core::{CoreExpr, CoreStmt, Place};
use nm_base::List;

/// The most nodes of a program.
pub const MOST_NODES: u32 = 200_000;

/// The most levels of an expression: those of a frame that weighs 10,020 bytes and has nothing else, 40 bytes and four a level.
pub const MOST_LEVELS: u32 = 2_495;

/// How deep statements stand in one another at most. A source has 200 levels, of which a `for` makes two, its block and its loop; what is
/// made around a body makes at most three.
pub const MOST_DEPTH: u32 = 500;

// What is left of this many nodes behind those of an expression, which has at most so many levels; None where there are more.
#[cycle(measure)]
#[tactic(auto, using(crate::proofs::Calls::levels_call, crate::proofs::Calls::nodes_call))]
fn expr(e: &CoreExpr, levels: u32, left: u32) -> Option<u32>
    ensures levels { IfSome result (λ _. weights.expr_levels (expr_of e.now) ≤ levels) }
    ensures nodes { IfSome result (λ rest. nodes.expr_nodes_of (expr_of e.now) + rest ≤ left) }
{
    let inner = levels.checked_sub(1)?;
    let left = left.checked_sub(1)?;
    match e {
        CoreExpr::Const(_, _) | CoreExpr::Null | CoreExpr::Post(_) | CoreExpr::In(_) => Some(left),
        CoreExpr::Read(at, _) | CoreExpr::Addr(at) => place(at, inner, left),
        CoreExpr::Un(_, _, a) | CoreExpr::Convert(_, a) | CoreExpr::Out(_, a) => expr(
            a, inner, left,
        ),
        CoreExpr::Bin(_, _, a, b) => expr(b, inner.checked_sub(1)?, expr(a, inner, left)?),
        CoreExpr::Offset(a, b, _) | CoreExpr::Distance(a, b, _) => expr(
            b,
            inner.checked_sub(1)?,
            expr(a, inner, left)?,
        ),
        CoreExpr::And(a, b) | CoreExpr::Or(a, b) | CoreExpr::Comma(a, b) => expr(
            b,
            inner.checked_sub(1)?,
            expr(a, inner, left)?,
        ),
        CoreExpr::Cond(a, b, c) => {
            let second = expr(b, inner.checked_sub(1)?, expr(a, inner, left)?)?;
            expr(c, inner.checked_sub(2)?, second)
        }
        CoreExpr::Assign(at, a, _) => expr(a, inner.checked_sub(1)?, place(at, inner, left)?),
        CoreExpr::Update(at, _, _, a, _, _) => expr(
            a,
            inner.checked_sub(1)?,
            place(at, inner, left)?,
        ),
        CoreExpr::Call(_, args, _) => {
            let rest = arguments(args, inner, left)?;
            Some(rest)
        }
    }
}

#[cycle(measure)]
fn place(place_at: &Place, levels: u32, left: u32) -> Option<u32>
    ensures levels { IfSome result (λ _. weights.place_levels (place_of place_at.now) ≤ levels) }
    ensures nodes { IfSome result (λ rest. nodes.place_nodes_of (place_of place_at.now) + rest ≤ left) }
{
    let inner = levels.checked_sub(1)?;
    let left = left.checked_sub(1)?;
    match place_at {
        Place::Object(_) | Place::Local(_) => Some(left),
        Place::Deref(e, _) => expr(e, inner, left),
        Place::Index(base, e) => expr(e, inner.checked_sub(1)?, place(base, inner, left)?),
        Place::Field(base, _) => place(base, inner, left),
    }
}

// Each argument stands behind those before it.
#[cycle(measure)]
fn arguments(args: &List<CoreExpr>, levels: u32, left: u32) -> Option<u32>
    ensures levels { IfSome result (λ _. weights.exprs_levels (exprs_of args.now) 0 ≤ levels) }
    ensures nodes { IfSome result (λ rest. nodes.exprs_nodes_of (exprs_of args.now) + rest ≤ left) }
{
    let mut inner = levels;
    let mut left = left;
    for arg in args.as_slice() {
        left = expr(arg, inner, left)?;
        inner = inner.checked_sub(1)?;
    }
    Some(left)
}

fn maybe(e: &Option<CoreExpr>, levels: u32, left: u32) -> Option<u32>
    ensures levels { IfSome result (λ _. weights.maybe_levels (maybe_expr_of e.now) ≤ levels) }
    ensures nodes { IfSome result (λ rest. nodes.maybe_nodes_of (maybe_expr_of e.now) + rest ≤ left) }
{
    match e {
        None => Some(left),
        Some(e) => expr(e, levels, left),
    }
}

// The arguments of an inlined call stand each alone.
fn each_argument(args: &List<CoreExpr>, levels: u32, left: u32) -> Option<u32>
    ensures levels { IfSome result (λ _. weights.greatest_levels (exprs_of args.now) ≤ levels) }
    ensures nodes { IfSome result (λ rest. nodes.exprs_nodes_of (exprs_of args.now) + rest ≤ left) }
{
    let mut left = left;
    for arg in args.as_slice() {
        left = expr(arg, levels, left)?;
    }
    Some(left)
}

/// What is left of this many nodes behind those of a statement, in which statements stand at most so deep in one another, with
/// expressions of at most so many levels; None where there are more.
#[cycle(measure_stmt)]
#[tactic(auto, using(crate::proofs::Switches::levels_switch, crate::proofs::Switches::nodes_switch))]
pub(crate) fn stmt(s: &CoreStmt, depth: u32, levels: u32, left: u32) -> Option<u32>
    ensures levels { IfSome result (λ _. weights.stmt_levels (stmt_of s.now) ≤ levels) }
    ensures nodes { IfSome result (λ rest. nodes.stmt_nodes_of (stmt_of s.now) + rest ≤ left) }
{
    let inner = depth.checked_sub(1)?;
    let left = left.checked_sub(1)?;
    match s {
        CoreStmt::Eval(e) => expr(e, levels, left),
        CoreStmt::Block(list) => stmts(list, inner, levels, left),
        CoreStmt::If(test, a, b) => {
            let first = stmt(a, inner, levels, expr(test, levels, left)?)?;
            stmt(b, inner, levels, first)
        }
        CoreStmt::Loop {
            test,
            step,
            body,
            ..
        } => {
            let before = maybe(step, levels, expr(test, levels, left)?)?;
            stmt(body, inner, levels, before)
        }
        CoreStmt::Switch(e, _, list) => {
            let rest = stmts(list, inner, levels, expr(e, levels, left)?)?;
            Some(rest)
        }
        CoreStmt::Break | CoreStmt::Continue | CoreStmt::Clear(_) => Some(left),
        CoreStmt::Return(e) => maybe(e, levels, left),
        CoreStmt::Atomic(body) => stmt(body, inner, levels, left),
        CoreStmt::Here { args, body, .. } => stmt(
            body,
            inner,
            levels,
            each_argument(args, levels, left)?,
        ),
    }
}

#[cycle(measure_stmt)]
fn stmts(list: &List<CoreStmt>, depth: u32, levels: u32, left: u32) -> Option<u32>
    ensures levels { IfSome result (λ _. weights.stmts_levels (stmts_of list.now) ≤ levels) }
    ensures nodes { IfSome result (λ rest. nodes.stmts_nodes_of (stmts_of list.now) + rest ≤ left) }
{
    let mut left = left;
    for s in list.as_slice() {
        left = stmt(s, depth, levels, left)?;
    }
    Some(left)
}

// What is left of this many atomic statements behind those that stand in one another in a statement, in which statements stand at most
// so deep; None where there are more.
#[cycle(atomics)]
fn atomics(s: &CoreStmt, depth: u32, left: u32) -> Option<u32>
    ensures { IfSome result (λ rest. weights.stmt_atomics (stmt_of s.now) + rest ≤ left) }
{
    let inner = depth.checked_sub(1)?;
    match s {
        CoreStmt::Block(list) => all_atomics(list, inner, left),
        CoreStmt::Switch(_, _, list) => {
            let rest = all_atomics(list, inner, left)?;
            Some(rest)
        }
        CoreStmt::If(_, a, b) => {
            let first = atomics(a, inner, left)?;
            let second = atomics(b, inner, left)?;
            Some(first.min(second))
        }
        CoreStmt::Loop { body, .. } => atomics(body, inner, left),
        CoreStmt::Here { body, .. } => atomics(body, inner, left),
        CoreStmt::Atomic(body) => atomics(body, inner, left.checked_sub(1)?),
        CoreStmt::Eval(_)
        | CoreStmt::Break
        | CoreStmt::Continue
        | CoreStmt::Return(_)
        | CoreStmt::Clear(_) => Some(left),
    }
}

#[cycle(atomics)]
fn all_atomics(list: &List<CoreStmt>, depth: u32, left: u32) -> Option<u32>
    ensures { IfSome result (λ rest. weights.stmts_atomics (stmts_of list.now) + rest ≤ left) }
{
    let mut rest = left;
    for s in list.as_slice() {
        rest = atomics(s, depth, left)?.min(rest);
    }
    Some(rest)
}

/// What is left of this many bytes behind those of the atomic statements, two each, that stand in one another in a statement, in which
/// statements stand at most so deep.
pub(crate) fn left_by_atomics(s: &CoreStmt, depth: u32, left: u32) -> Option<u32>
    ensures { IfSome result (λ rest. 2 * weights.stmt_atomics (stmt_of s.now) + rest ≤ left) }
{
    let most = left / 2;
    let others = atomics(s, depth, most)?;
    left.checked_sub(2 * (most - others))
}
