//! Parts of statements that hold no statements.

ghost use Rattle.std.specs.Prelude.{map};
ghost use Rattle.nesc_core.specs.View.{expr_of as core_expr_of, maybe_expr_of, stmt_of, type_of};
ghost use Rattle.nesc_tree.specs.View.{expr_of};
ghost use Rattle.elab_meaning.specs.Answers.{Gives};
ghost use Rattle.elab_meaning.specs.Convert as convert;
ghost use Rattle.elab_meaning.specs.View.{env_of, state_of};
ghost use Rattle.body_meaning.specs.Stmts as spec;
ghost use Rattle.body_meaning.specs.View.{decl_of, maybe_of, start_of};
ghost use Rattle.elab_stmts.specs.Parts as parts;

use elab_exprs::{Told, constant, value};
use elab_locals::{declaration, declares};
use elab_meaning::Work;
use elab_pieces::{block_of, eval, one_of, return_of};
use elab_values::{bad_type, converted, integer, is_void, promoted_value, scalar};
use nesc_core::{CoreExpr, CoreStmt, CoreType};
use nesc_tree::{Decl, Expr, ForStart};
use nesc_types::{pos_of, promoted};
use nm_base::{Fault, IntType, Pos, beside, wrap};
use std::alloc::Global;

/// A test: a number or a pointer.
pub(crate) fn tested(
    alloc: Global,
    told: &Told,
    work: &mut Work,
    e: &Expr,
) -> Result<CoreExpr, Fault>
    ensures { Gives core_expr_of result (state_of work.new) (spec.tested (env_of told.now.env) told.now.values (expr_of e.now) (state_of work.old)) }
{
    let v = value(alloc, told, work, e)?;
    scalar(pos_of(e), v)
}

// A test that may be left out.
fn tested_or_one(
    alloc: Global,
    told: &Told,
    work: &mut Work,
    e: &Option<Expr>,
) -> Result<CoreExpr, Fault>
    ensures { Gives core_expr_of result (state_of work.new) (spec.tested_or_one (env_of told.now.env) told.now.values (maybe_of e.now) (state_of work.old)) }
{
    match e {
        None => Ok(CoreExpr::Const(IntType::I16, 1)),
        Some(e) => tested(alloc, told, work, e),
    }
}

fn evaluated(alloc: Global, told: &Told, work: &mut Work, e: &Expr) -> Result<CoreExpr, Fault>
    ensures { Gives core_expr_of result (state_of work.new) (spec.evaluated (env_of told.now.env) told.now.values (expr_of e.now) (state_of work.old)) }
{
    let v = value(alloc, told, work, e)?;
    Ok(v.expr)
}

/// An expression statement.
pub(crate) fn eval_of(
    alloc: Global,
    told: &Told,
    work: &mut Work,
    e: &Expr,
) -> Result<CoreStmt, Fault>
    ensures { Gives stmt_of result (state_of work.new) (parts.eval_of (env_of told.now.env) told.now.values (expr_of e.now) (state_of work.old)) }
{
    let x = evaluated(alloc, told, work, e)?;
    Ok(eval(x))
}

// What is done between two turns.
fn step_of(
    alloc: Global,
    told: &Told,
    work: &mut Work,
    e: &Option<Expr>,
) -> Result<Option<CoreExpr>, Fault>
    ensures { Gives maybe_expr_of result (state_of work.new) (spec.step_of (env_of told.now.env) told.now.values (maybe_of e.now) (state_of work.old)) }
{
    match e {
        None => Ok(None),
        Some(e) => {
            let x = evaluated(alloc, told, work, e)?;
            Ok(Some(x))
        }
    }
}

/// The test of a `for`, and what is done between two turns.
pub(crate) fn turn_of(
    alloc: Global,
    told: &Told,
    work: &mut Work,
    test: &Option<Expr>,
    step: &Option<Expr>,
) -> Result<(CoreExpr, Option<CoreExpr>), Fault>
    ensures { Gives (λ t. (core_expr_of t.0, maybe_expr_of t.1)) result (state_of work.new) (parts.turn_of (env_of told.now.env) told.now.values (maybe_of test.now) (maybe_of step.now) (state_of work.old)) }
{
    let t = tested_or_one(alloc, told, work, test)?;
    beside(t, step_of(alloc, told, work, step))
}

/// What stands before a loop.
pub(crate) fn started(
    alloc: Global,
    told: &Told,
    work: &mut Work,
    start: &ForStart,
    at: Pos,
) -> Result<Vec<CoreStmt>, Fault>
    ensures { Gives (λ v. map stmt_of v.items) result (state_of work.new) (spec.started (env_of told.now.env) told.now.values at (start_of start.now) (state_of work.old)) }
{
    match start {
        ForStart::Nothing => Ok(Vec::new(alloc)),
        ForStart::Eval(e) => {
            let x = evaluated(alloc, told, work, e)?;
            Ok(one_of(alloc, eval(x))?)
        }
        ForStart::Vars(g) => declares(alloc, told, work, g, at),
    }
}

// `return` with a value.
fn returned_value(
    alloc: Global,
    told: &Told,
    work: &mut Work,
    e: &Expr,
    due: &CoreType,
) -> Result<CoreStmt, Fault>
    ensures { Gives stmt_of result (state_of work.new) (spec.returned_value (env_of told.now.env) told.now.values (type_of due.now) (expr_of e.now) (convert.is_void (type_of due.now)) (state_of work.old)) }
{
    if is_void(due) {
        return bad_type(pos_of(e));
    }
    let v = value(alloc, told, work, e)?;
    let x = converted(alloc, pos_of(e), due, v)?;
    Ok(return_of(Some(x)))
}

// `return` without one.
fn returned_nothing(work: &Work, due: &CoreType, at: Pos) -> Result<CoreStmt, Fault>
    ensures { Gives stmt_of result (state_of work.now) (spec.returned_nothing (type_of due.now) at (convert.is_void (type_of due.now)) (state_of work.now)) }
{
    if is_void(due) {
        return Ok(return_of(None));
    }
    bad_type(at)
}

/// `return` in a function with this result.
pub(crate) fn returned(
    alloc: Global,
    told: &Told,
    work: &mut Work,
    e: &Option<Expr>,
    due: &CoreType,
    at: Pos,
) -> Result<CoreStmt, Fault>
    ensures { Gives stmt_of result (state_of work.new) (spec.returned (env_of told.now.env) told.now.values (type_of due.now) at (maybe_of e.now) (state_of work.old)) }
{
    match e {
        None => returned_nothing(work, due, at),
        Some(e) => returned_value(alloc, told, work, e, due),
    }
}

/// The value of a label, at the type that is switched on.
pub(crate) fn label(
    alloc: Global,
    told: &Told,
    work: &mut Work,
    e: &Expr,
    t: IntType,
) -> Result<i64, Fault>
    ensures { Gives (λ z. z) result (state_of work.new) (spec.label (env_of told.now.env) told.now.values t (expr_of e.now) (state_of work.old)) }
{
    let c = constant(alloc, told, work, e)?;
    Ok(wrap(t, c.1))
}

/// What is switched on, and the type that it is promoted to.
pub(crate) fn switched(
    alloc: Global,
    told: &Told,
    work: &mut Work,
    e: &Expr,
) -> Result<(CoreExpr, IntType), Fault>
    ensures { Gives (λ v. (core_expr_of v.0, v.1)) result (state_of work.new) (parts.switched (env_of told.now.env) told.now.values (expr_of e.now) (state_of work.old)) }
{
    let v = value(alloc, told, work, e)?;
    let t = integer(pos_of(e), &v.ty);
    let (v, t) = beside(v, t)?;
    let x = promoted_value(alloc, t, v.expr)?;
    Ok((x, promoted(t)))
}

/// A declaration as a statement.
pub(crate) fn declared(
    alloc: Global,
    told: &Told,
    work: &mut Work,
    d: &Decl,
    at: Pos,
) -> Result<CoreStmt, Fault>
    ensures { Gives stmt_of result (state_of work.new) (parts.declared (env_of told.now.env) told.now.values (decl_of d.now) at (state_of work.old)) }
{
    let code = declaration(alloc, told, work, d, at)?;
    Ok(block_of(code))
}
