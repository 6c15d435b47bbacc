//! Statements of the core from their parts.

ghost use Rattle.std.specs.Prelude.{◌≡◌, ◌∷◌, [], IfOk, map};
ghost use Rattle.nesc_core.specs.Plain as core;
ghost use Rattle.nesc_core.specs.View.{expr_of, maybe_expr_of, stmt_of};
ghost use Rattle.body_meaning.specs.Stmts as spec;

use nesc_core::{CoreExpr, CoreStmt};
use nm_base::{List, NoMemory};
use std::alloc::Global;

/// An expression that is evaluated.
pub fn eval(e: CoreExpr) -> CoreStmt
    ensures { stmt_of result ≡ core.eval (expr_of e) }
{
    CoreStmt::Eval(e)
}

/// A block.
#[tactic(auto, using(crate::proofs::Statements::blocks))]
pub fn block_of(code: Vec<CoreStmt>) -> CoreStmt
    ensures { stmt_of result ≡ spec.block_of (map stmt_of code.items) }
{
    CoreStmt::Block(List::new(code))
}

/// The empty statement.
pub fn empty(alloc: Global) -> CoreStmt
    ensures { stmt_of result ≡ spec.empty }
{
    block_of(Vec::new(alloc))
}

/// An atomic statement.
pub fn atomic(alloc: Global, code: CoreStmt) -> Result<CoreStmt, NoMemory>
    ensures { IfOk result (λ r. stmt_of r ≡ core.atomic (stmt_of code)) }
{
    Ok(CoreStmt::Atomic(Box::new(alloc, code)?))
}

/// `if`, with what stands behind `else`.
pub fn branch(
    alloc: Global,
    test: CoreExpr,
    code: CoreStmt,
    other: CoreStmt,
) -> Result<CoreStmt, NoMemory>
    ensures { IfOk result (λ r. stmt_of r ≡ core.branch (expr_of test) (stmt_of code) (stmt_of other)) }
{
    Ok(CoreStmt::If(test, Box::new(alloc, code)?, Box::new(alloc, other)?))
}

/// A loop.
pub fn looped(
    alloc: Global,
    first: bool,
    test: CoreExpr,
    step: Option<CoreExpr>,
    code: CoreStmt,
) -> Result<CoreStmt, NoMemory>
    ensures { IfOk result (λ r. stmt_of r ≡ core.loop first (expr_of test) (maybe_expr_of step) (stmt_of code)) }
{
    let body = Box::new(alloc, code)?;
    Ok(CoreStmt::Loop {
        first,
        test,
        step,
        body,
    })
}

/// `return`.
pub fn return_of(e: Option<CoreExpr>) -> CoreStmt
    ensures { stmt_of result ≡ core.return (maybe_expr_of e) }
{
    CoreStmt::Return(e)
}

/// One statement alone.
pub fn one_of(alloc: Global, code: CoreStmt) -> Result<Vec<CoreStmt>, NoMemory>
    ensures { IfOk result (λ v. map stmt_of v.items ≡ stmt_of code ∷ []) }
{
    Ok(vec![in alloc; code]?)
}

/// A loop, behind what stands before it.
#[tactic(auto, using(crate::proofs::Statements::behinds))]
pub fn behind(before: Vec<CoreStmt>, code: CoreStmt) -> Result<CoreStmt, NoMemory>
    ensures { IfOk result (λ r. stmt_of r ≡ spec.behind (map stmt_of before.items) (stmt_of code)) }
{
    if before.as_slice().is_empty() {
        return Ok(code);
    }
    let mut all = before;
    all.push(code)?;
    Ok(block_of(all))
}
