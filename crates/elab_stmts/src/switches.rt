//! The statements of a switch: labels stand in its block alone.

ghost use Rattle.std.specs.Prelude.{map};
ghost use Rattle.nesc_core.specs.View.{type_of};
ghost use Rattle.nesc_tree.specs.View.{expr_of};
ghost use Rattle.elab_pieces.specs.Flow.{labelled_of};
ghost use Rattle.body_meaning.specs.View.{stmt_of, stmts};
ghost use Rattle.elab_stmts.specs.Walk.{IsAdded, IsLabelled, block_cases_at, case_at, cases_at, default_at, labelled_at, labelled_items_at, plain_body_at, plain_item_at};

use crate::parts::label;
use crate::walk::{item, stmt};
use elab_exprs::Told;
use elab_meaning::Work;
use elab_pieces::{
    Label, Labelled, add_code, add_label, block_in, enter, label_in, leave, no_labels, one_of,
    unlabelled,
};
use nesc_core::CoreType;
use nesc_tree::{Expr, Stmt};
use nm_base::{Fault, IntType, List};
use std::alloc::Global;

// The body of a switch.
#[cycle(walk)]
#[tactic(auto, using(crate::proofs::Sizes::blocks))]
pub(crate) fn cases(
    alloc: Global,
    told: &Told,
    work: &mut Work,
    x: &Stmt,
    t: IntType,
    due: &CoreType,
) -> Result<Labelled, Fault>
    ensures { IsLabelled result work.new (cases_at told.now (type_of due.now) t (stmt_of x.now) work.old) }
{
    match block_in(x) {
        Some(xs) => block_cases(alloc, told, work, xs, t, due),
        None => plain_body(alloc, told, work, x, due),
    }
}

// A block, which is a scope.
#[cycle(walk)]
#[tactic(auto, unfolding(crate::specs::Walk::IsLabelled, crate::specs::Walk::block_cases_at, crate::specs::Walk::labelled_items_at))]
fn block_cases(
    alloc: Global,
    told: &Told,
    work: &mut Work,
    xs: &List<Stmt>,
    t: IntType,
    due: &CoreType,
) -> Result<Labelled, Fault>
    ensures { IsLabelled result work.new (block_cases_at told.now (type_of due.now) t (stmts (map stmt_of xs.now)) work.old) }
{
    let outer = enter(work);
    let l = labelled_items(alloc, told, work, xs, t, due)?;
    leave(work, outer);
    Ok(l)
}

// What is no block has no labels.
#[cycle(walk)]
#[tactic(auto, unfolding(crate::specs::Walk::IsLabelled, crate::specs::Walk::IsStmt, crate::specs::Walk::plain_body_at, crate::specs::Walk::stmt_at))]
fn plain_body(
    alloc: Global,
    told: &Told,
    work: &mut Work,
    x: &Stmt,
    due: &CoreType,
) -> Result<Labelled, Fault>
    ensures { IsLabelled result work.new (plain_body_at told.now (type_of due.now) (stmt_of x.now) work.old) }
{
    let code = stmt(alloc, told, work, x, due)?;
    let all = one_of(alloc, code)?;
    Ok(unlabelled(alloc, all))
}

// Statements with their labels, in their order.
#[cycle(walk)]
#[tactic(auto, using(crate::proofs::Loops::labelled_lists), unfolding(crate::specs::Walk::IsAdded, crate::specs::Walk::IsLabelled, crate::specs::Walk::labelled_at, crate::specs::Walk::labelled_items_at))]
fn labelled_items(
    alloc: Global,
    told: &Told,
    work: &mut Work,
    xs: &List<Stmt>,
    t: IntType,
    due: &CoreType,
) -> Result<Labelled, Fault>
    ensures { IsLabelled result work.new (labelled_items_at told.now (type_of due.now) t (stmts (map stmt_of xs.now)) work.old) }
{
    let mut out = no_labels(alloc);
    for x in xs.as_slice() {
        labelled(alloc, told, work, x, &mut out, t, due)?;
    }
    Ok(out)
}

// A statement with its labels, behind those before it.
#[cycle(walk)]
#[tactic(auto, using(crate::proofs::Sizes::labels))]
fn labelled(
    alloc: Global,
    told: &Told,
    work: &mut Work,
    x: &Stmt,
    out: &mut Labelled,
    t: IntType,
    due: &CoreType,
) -> Result<(), Fault>
    ensures { IsAdded result out.new work.new (labelled_at told.now (type_of due.now) t (labelled_of out.old) (stmt_of x.now) work.old) }
{
    match label_in(x) {
        Label::Case(e, y) => case_of(alloc, told, work, y, out, e, t, due),
        Label::Default(y) => default_of(alloc, told, work, y, out, t, due),
        Label::Nothing => plain_item(alloc, told, work, x, out, due),
    }
}

// `case`.
#[cycle(walk)]
#[tactic(auto, unfolding(crate::specs::Walk::IsAdded, crate::specs::Walk::case_at, crate::specs::Walk::labelled_at))]
fn case_of(
    alloc: Global,
    told: &Told,
    work: &mut Work,
    x: &Stmt,
    out: &mut Labelled,
    e: &Expr,
    t: IntType,
    due: &CoreType,
) -> Result<(), Fault>
    ensures { IsAdded result out.new work.new (case_at told.now (type_of due.now) t (labelled_of out.old) (expr_of e.now) (stmt_of x.now) work.old) }
{
    let z = label(alloc, told, work, e, t)?;
    add_label(alloc, out, Some(z))?;
    labelled(alloc, told, work, x, out, t, due)
}

// `default`.
#[cycle(walk)]
#[tactic(auto, unfolding(crate::specs::Walk::IsAdded, crate::specs::Walk::default_at, crate::specs::Walk::labelled_at))]
fn default_of(
    alloc: Global,
    told: &Told,
    work: &mut Work,
    x: &Stmt,
    out: &mut Labelled,
    t: IntType,
    due: &CoreType,
) -> Result<(), Fault>
    ensures { IsAdded result out.new work.new (default_at told.now (type_of due.now) t (labelled_of out.old) (stmt_of x.now) work.old) }
{
    add_label(alloc, out, None)?;
    labelled(alloc, told, work, x, out, t, due)
}

// A statement without a label.
#[cycle(walk)]
#[tactic(auto, unfolding(crate::specs::Walk::AreStmts, crate::specs::Walk::IsAdded, crate::specs::Walk::item_at, crate::specs::Walk::plain_item_at))]
fn plain_item(
    alloc: Global,
    told: &Told,
    work: &mut Work,
    x: &Stmt,
    out: &mut Labelled,
    due: &CoreType,
) -> Result<(), Fault>
    ensures { IsAdded result out.new work.new (plain_item_at told.now (type_of due.now) (labelled_of out.old) (stmt_of x.now) work.old) }
{
    let code = item(alloc, told, work, x, due)?;
    add_code(out, code)?;
    Ok(())
}
