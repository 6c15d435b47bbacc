//! Statements in which each post becomes a call.

ghost use Rattle.std.specs.Prelude.{◌≡◌, IfOk};
ghost use Rattle.nesc_core.specs.View.{exprs_of, maybe_expr_of, stmt_of, stmts_of};
ghost use Rattle.task_queue.specs.Posting as posting;

use crate::exprs::{post_in_expr, posted_args};
use nesc_core::{CoreExpr, CoreStmt};
use nm_base::{List, NoMemory};
use std::alloc::Global;
use std::mem;

fn post_in_maybe(alloc: Global, queue: u32, e: &mut Option<CoreExpr>) -> Result<(), NoMemory>
    ensures { IfOk result (λ _. maybe_expr_of e.new ≡ posting.posting_maybe queue (maybe_expr_of e.old)) }
{
    match e {
        None => Ok(()),
        Some(e) => post_in_expr(alloc, queue, e),
    }
}

fn post_in_args(alloc: Global, queue: u32, args: &mut List<CoreExpr>) -> Result<(), NoMemory>
    ensures { IfOk result (λ _. exprs_of args.new ≡ posting.posting_exprs queue (exprs_of args.old)) }
{
    let list = mem::replace(args, List::new(Vec::new(alloc)));
    *args = posted_args(alloc, queue, list)?;
    Ok(())
}

/// Makes each post of a statement a call of function `queue`, in place; where memory is wanting, the statement is left as it may be.
/// Recurses as deep as statements and expressions stand in one another; time grows with the nodes.
#[cycle(posting_stmt)]
#[tactic(auto, using(crate::proofs::Forms::block_posted, crate::proofs::Forms::switch_posted))]
pub fn post_in_stmt(alloc: Global, queue: u32, s: &mut CoreStmt) -> Result<(), NoMemory>
    ensures { IfOk result (λ _. stmt_of s.new ≡ posting.posting_stmt queue (stmt_of s.old)) }
{
    match s {
        CoreStmt::Break | CoreStmt::Continue | CoreStmt::Clear(_) => Ok(()),
        CoreStmt::Eval(e) => post_in_expr(alloc, queue, e),
        CoreStmt::Block(list) => {
            let list = mem::replace(list, List::new(Vec::new(alloc)));
            let list = posted_stmts(alloc, queue, list)?;
            *s = CoreStmt::Block(list);
            Ok(())
        }
        CoreStmt::If(test, a, b) => {
            post_in_expr(alloc, queue, test)?;
            post_in_boxed(alloc, queue, a)?;
            post_in_boxed(alloc, queue, b)
        }
        CoreStmt::Loop {
            test,
            step,
            body,
            ..
        } => {
            post_in_expr(alloc, queue, test)?;
            post_in_maybe(alloc, queue, step)?;
            post_in_boxed(alloc, queue, body)
        }
        CoreStmt::Switch(e, cases, list) => {
            post_in_expr(alloc, queue, e)?;
            let list = mem::replace(list, List::new(Vec::new(alloc)));
            let list = posted_stmts(alloc, queue, list)?;
            let e = mem::replace(e, CoreExpr::Null);
            let cases = mem::replace(cases, List::new(Vec::new(alloc)));
            *s = CoreStmt::Switch(e, cases, list);
            Ok(())
        }
        CoreStmt::Return(e) => post_in_maybe(alloc, queue, e),
        CoreStmt::Atomic(body) => post_in_boxed(alloc, queue, body),
        CoreStmt::Here { args, body, .. } => {
            post_in_args(alloc, queue, args)?;
            post_in_boxed(alloc, queue, body)
        }
    }
}

#[cycle(posting_stmt)]
fn post_in_boxed(alloc: Global, queue: u32, s: &mut Box<CoreStmt>) -> Result<(), NoMemory>
    ensures { IfOk result (λ _. stmt_of s.new.value ≡ posting.posting_stmt queue (stmt_of s.old.value)) }
{
    post_in_stmt(alloc, queue, s)
}

#[cycle(posting_stmt)]
fn posted_stmts(alloc: Global, queue: u32, list: List<CoreStmt>) -> Result<List<CoreStmt>, NoMemory>
    ensures { IfOk result (λ r. stmts_of r ≡ posting.posting_stmts queue (stmts_of list)) }
{
    let mut items = list.into_vec();
    for s in items.iter_mut() {
        post_in_stmt(alloc, queue, s)?;
    }
    Ok(List::new(items))
}
