//! Statements: a walk over their trees.

ghost use Rattle.std.specs.Prelude.{map};
ghost use Rattle.nesc_core.specs.View.{expr_of as core_expr_of, stmt_of as core_stmt_of, type_of};
ghost use Rattle.nesc_tree.specs.View.{expr_of};
ghost use Rattle.elab_forms.specs.Trees.{nowhere};
ghost use Rattle.body_meaning.specs.Tree as tree;
ghost use Rattle.body_meaning.specs.View.{maybe_of, maybe_stmt, start_of, stmt_of, stmts};
ghost use Rattle.std.specs.Option.{option_map};
ghost use Rattle.elab_stmts.specs.Walk.{AreStmts, IsStmt, branch_with_at, for_at, for_within_at, item_at, items_at, otherwise_at, stmt_at, switch_at, turning_at};

use crate::parts::{declared, eval_of, returned, started, switched, tested, turn_of};
use crate::switches::cases;
use elab_exprs::Told;
use elab_locals::{add_stmts, declaration, syntax};
use elab_meaning::Work;
use elab_pieces::{
    atomic, behind, block_of, branch, declaration_in, empty, enter, leave, looped, one_of,
    switch_on,
};
use nesc_core::{CoreExpr, CoreStmt, CoreType};
use nesc_tree::{Expr, ForStart, Stmt};
use nm_base::{Boxed, Fault, List, Pos, beside};
use std::alloc::Global;

// A statement in a function with this result.
#[cycle(walk)]
#[tactic(auto, unfolding(crate::specs::Walk::IsStmt, crate::specs::Walk::stmt_at))]
pub(crate) fn stmt(
    alloc: Global,
    told: &Told,
    work: &mut Work,
    x: &Stmt,
    due: &CoreType,
) -> Result<CoreStmt, Fault>
    ensures { IsStmt result work.new (stmt_at told.now (type_of due.now) (stmt_of x.now) work.old) }
{
    match x {
        Stmt::Block(xs, _) => block(alloc, told, work, xs, due),
        Stmt::Empty(_) => Ok(empty(alloc)),
        Stmt::Eval(e, _) => eval_of(alloc, told, work, e),
        Stmt::Atomic(y, _) => atomic_of(alloc, told, work, y.get(), due),
        Stmt::If(e, y, other, _) => branch_on(alloc, told, work, e, y.get(), other, due),
        Stmt::While(e, y, _) => while_loop(alloc, told, work, e, y.get(), due),
        Stmt::DoWhile(y, e, _) => do_loop(alloc, told, work, e, y.get(), due),
        Stmt::For {
            start,
            test,
            step,
            body,
            pos,
        } => for_loop(alloc, told, work, start, test, step, body.get(), due, *pos),
        Stmt::Switch(e, y, _) => switch(alloc, told, work, e, y.get(), due),
        Stmt::Case(_, _, at) => syntax(*at),
        Stmt::Default(_, at) => syntax(*at),
        Stmt::Break(_) => Ok(CoreStmt::Break),
        Stmt::Continue(_) => Ok(CoreStmt::Continue),
        Stmt::Return(e, at) => returned(alloc, told, work, e, due, *at),
        Stmt::Local(d, at) => declared(alloc, told, work, d.get(), *at),
    }
}

// A block, which is a scope.
#[cycle(walk)]
#[tactic(auto, unfolding(crate::specs::Walk::AreStmts, crate::specs::Walk::IsStmt, crate::specs::Walk::items_at, crate::specs::Walk::stmt_at))]
fn block(
    alloc: Global,
    told: &Told,
    work: &mut Work,
    xs: &List<Stmt>,
    due: &CoreType,
) -> Result<CoreStmt, Fault>
    ensures { IsStmt result work.new (stmt_at told.now (type_of due.now) (tree.block (stmts (map stmt_of xs.now)) nowhere) work.old) }
{
    let outer = enter(work);
    let code = items(alloc, told, work, xs, due)?;
    leave(work, outer);
    Ok(block_of(code))
}

// Statements and declarations, in their order.
#[cycle(walk)]
#[tactic(auto, using(crate::proofs::Loops::item_lists), unfolding(crate::specs::Walk::AreStmts, crate::specs::Walk::item_at, crate::specs::Walk::items_at))]
pub(crate) fn items(
    alloc: Global,
    told: &Told,
    work: &mut Work,
    xs: &List<Stmt>,
    due: &CoreType,
) -> Result<Vec<CoreStmt>, Fault>
    ensures { AreStmts result work.new (items_at told.now (type_of due.now) (stmts (map stmt_of xs.now)) work.old) }
{
    let mut code = Vec::new(alloc);
    for x in xs.as_slice() {
        let more = item(alloc, told, work, x, due)?;
        add_stmts(&mut code, more)?;
    }
    Ok(code)
}

// A declaration stands in its block part by part.
#[cycle(walk)]
#[tactic(auto, unfolding(crate::specs::Walk::AreStmts, crate::specs::Walk::IsStmt, crate::specs::Walk::item_at, crate::specs::Walk::stmt_at))]
pub(crate) fn item(
    alloc: Global,
    told: &Told,
    work: &mut Work,
    x: &Stmt,
    due: &CoreType,
) -> Result<Vec<CoreStmt>, Fault>
    ensures { AreStmts result work.new (item_at told.now (type_of due.now) (stmt_of x.now) work.old) }
{
    if let Some(d) = declaration_in(x) {
        return declaration(alloc, told, work, d.0, d.1);
    }
    let code = stmt(alloc, told, work, x, due)?;
    Ok(one_of(alloc, code)?)
}

// An atomic statement.
#[cycle(walk)]
#[tactic(auto, unfolding(crate::specs::Walk::IsStmt, crate::specs::Walk::stmt_at))]
fn atomic_of(
    alloc: Global,
    told: &Told,
    work: &mut Work,
    x: &Stmt,
    due: &CoreType,
) -> Result<CoreStmt, Fault>
    ensures { IsStmt result work.new (stmt_at told.now (type_of due.now) (tree.atomic (stmt_of x.now) nowhere) work.old) }
{
    let code = stmt(alloc, told, work, x, due)?;
    Ok(atomic(alloc, code)?)
}

// `if`.
#[cycle(walk)]
#[tactic(auto, unfolding(crate::specs::Walk::IsStmt, crate::specs::Walk::branch_with_at, crate::specs::Walk::stmt_at))]
fn branch_on(
    alloc: Global,
    told: &Told,
    work: &mut Work,
    e: &Expr,
    x: &Stmt,
    other: &Option<Boxed<Stmt>>,
    due: &CoreType,
) -> Result<CoreStmt, Fault>
    ensures { IsStmt result work.new (stmt_at told.now (type_of due.now) (tree.branch (expr_of e.now) (stmt_of x.now) (maybe_stmt (option_map stmt_of other.now)) nowhere) work.old) }
{
    let test = tested(alloc, told, work, e)?;
    let (test, code) = beside(test, stmt(alloc, told, work, x, due))?;
    branch_with(alloc, told, work, other, due, test, code)
}

// What stands behind `else`, behind the other parts.
#[cycle(walk)]
#[tactic(auto, unfolding(crate::specs::Walk::IsStmt, crate::specs::Walk::branch_with_at, crate::specs::Walk::otherwise_at))]
fn branch_with(
    alloc: Global,
    told: &Told,
    work: &mut Work,
    other: &Option<Boxed<Stmt>>,
    due: &CoreType,
    test: CoreExpr,
    code: CoreStmt,
) -> Result<CoreStmt, Fault>
    ensures { IsStmt result work.new (branch_with_at told.now (type_of due.now) (core_expr_of test) (core_stmt_of code) (maybe_stmt (option_map stmt_of other.now)) work.old) }
{
    let ((test, code), last) = beside((test, code), otherwise(alloc, told, work, other, due))?;
    Ok(branch(alloc, test, code, last)?)
}

// What stands behind `else`, or nothing.
#[cycle(walk)]
#[tactic(auto, unfolding(crate::specs::Walk::IsStmt, crate::specs::Walk::otherwise_at, crate::specs::Walk::stmt_at))]
fn otherwise(
    alloc: Global,
    told: &Told,
    work: &mut Work,
    other: &Option<Boxed<Stmt>>,
    due: &CoreType,
) -> Result<CoreStmt, Fault>
    ensures { IsStmt result work.new (otherwise_at told.now (type_of due.now) (maybe_stmt (option_map stmt_of other.now)) work.old) }
{
    match other {
        None => Ok(empty(alloc)),
        Some(x) => stmt(alloc, told, work, x.get(), due),
    }
}

// `while`.
#[cycle(walk)]
#[tactic(auto, unfolding(crate::specs::Walk::IsStmt, crate::specs::Walk::stmt_at))]
fn while_loop(
    alloc: Global,
    told: &Told,
    work: &mut Work,
    e: &Expr,
    x: &Stmt,
    due: &CoreType,
) -> Result<CoreStmt, Fault>
    ensures { IsStmt result work.new (stmt_at told.now (type_of due.now) (tree.while (expr_of e.now) (stmt_of x.now) nowhere) work.old) }
{
    let test = tested(alloc, told, work, e)?;
    let (test, code) = beside(test, stmt(alloc, told, work, x, due))?;
    Ok(looped(alloc, true, test, None, code)?)
}

// `do`.
#[cycle(walk)]
#[tactic(auto, unfolding(crate::specs::Walk::IsStmt, crate::specs::Walk::stmt_at))]
fn do_loop(
    alloc: Global,
    told: &Told,
    work: &mut Work,
    e: &Expr,
    x: &Stmt,
    due: &CoreType,
) -> Result<CoreStmt, Fault>
    ensures { IsStmt result work.new (stmt_at told.now (type_of due.now) (tree.do_while (stmt_of x.now) (expr_of e.now) nowhere) work.old) }
{
    let code = stmt(alloc, told, work, x, due)?;
    let (code, test) = beside(code, tested(alloc, told, work, e))?;
    Ok(looped(alloc, false, test, None, code)?)
}

// `for`, which is a scope.
#[cycle(walk)]
#[tactic(auto, unfolding(crate::specs::Walk::IsStmt, crate::specs::Walk::for_at, crate::specs::Walk::for_within_at))]
fn for_loop(
    alloc: Global,
    told: &Told,
    work: &mut Work,
    start: &ForStart,
    test: &Option<Expr>,
    step: &Option<Expr>,
    x: &Stmt,
    due: &CoreType,
    at: Pos,
) -> Result<CoreStmt, Fault>
    ensures { IsStmt result work.new (for_at told.now (type_of due.now) (start_of start.now) (maybe_of test.now) (maybe_of step.now) (stmt_of x.now) at work.old) }
{
    let outer = enter(work);
    let code = for_within(alloc, told, work, start, test, step, x, due, at)?;
    leave(work, outer);
    Ok(code)
}

// `for` in its scope.
#[cycle(walk)]
#[tactic(auto, unfolding(crate::specs::Walk::IsStmt, crate::specs::Walk::for_within_at, crate::specs::Walk::turning_at))]
fn for_within(
    alloc: Global,
    told: &Told,
    work: &mut Work,
    start: &ForStart,
    test: &Option<Expr>,
    step: &Option<Expr>,
    x: &Stmt,
    due: &CoreType,
    at: Pos,
) -> Result<CoreStmt, Fault>
    ensures { IsStmt result work.new (for_within_at told.now (type_of due.now) (start_of start.now) (maybe_of test.now) (maybe_of step.now) (stmt_of x.now) at work.old) }
{
    let before = started(alloc, told, work, start, at)?;
    let (before, code) = beside(before, turning(alloc, told, work, test, step, x, due))?;
    Ok(behind(before, code)?)
}

// The loop of a `for`.
#[cycle(walk)]
#[tactic(auto, unfolding(crate::specs::Walk::IsStmt, crate::specs::Walk::stmt_at, crate::specs::Walk::turning_at))]
fn turning(
    alloc: Global,
    told: &Told,
    work: &mut Work,
    test: &Option<Expr>,
    step: &Option<Expr>,
    x: &Stmt,
    due: &CoreType,
) -> Result<CoreStmt, Fault>
    ensures { IsStmt result work.new (turning_at told.now (type_of due.now) (maybe_of test.now) (maybe_of step.now) (stmt_of x.now) work.old) }
{
    let turn = turn_of(alloc, told, work, test, step)?;
    let (turn, code) = beside(turn, stmt(alloc, told, work, x, due))?;
    Ok(looped(alloc, true, turn.0, turn.1, code)?)
}

// `switch`.
#[cycle(walk)]
#[tactic(auto, unfolding(crate::specs::Walk::IsLabelled, crate::specs::Walk::IsStmt, crate::specs::Walk::cases_at, crate::specs::Walk::switch_at))]
fn switch(
    alloc: Global,
    told: &Told,
    work: &mut Work,
    e: &Expr,
    x: &Stmt,
    due: &CoreType,
) -> Result<CoreStmt, Fault>
    ensures { IsStmt result work.new (switch_at told.now (type_of due.now) (expr_of e.now) (stmt_of x.now) work.old) }
{
    let v = switched(alloc, told, work, e)?;
    let (v, t) = v;
    let (v, l) = beside(v, cases(alloc, told, work, x, t, due))?;
    Ok(switch_on(v, l))
}
