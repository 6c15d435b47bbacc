//! `+`, of two numbers or a number and a pointer.

ghost use Rattle.std.specs.Prelude.{◌≡◌, IfOk, Some};
ghost use Rattle.nesc_core.specs.Plain as core;
ghost use Rattle.nesc_core.specs.View.{expr_of, type_of};
ghost use Rattle.elab_meaning.specs.Answers.{Gives};
ghost use Rattle.elab_meaning.specs.Convert as convert;
ghost use Rattle.elab_meaning.specs.Convert.{typed};
ghost use Rattle.elab_meaning.specs.Places as spec;
ghost use Rattle.elab_meaning.specs.View.{found_of, state_of};

use crate::comparisons::{behind_kept, read_local};
use crate::numbers::arithmetic;
use crate::pointers::{moved, offset_by, pointer_found, stride_behind};
use elab_meaning::{Found, Stride, Work};
use elab_values::int_of;
use nesc_core::{BinOp, CoreExpr, CoreType};
use nm_base::{Fault, IntType, NoMemory, Pos, beside};
use std::alloc::Global;

// A pointer moved by a number that waits in a local.
fn offset_behind(
    alloc: Global,
    at: Pos,
    local: u32,
    x: CoreExpr,
    p: CoreExpr,
    over: Stride,
) -> Result<Found, NoMemory>
    ensures { IfOk result (λ r. found_of r ≡ convert.value_found (spec.behind_kept at local (expr_of x) (core.offset (expr_of p) (core.read (core.local local) at) over.bytes)) (core.pointer (type_of over.part))) }
{
    let next = offset_by(alloc, p, read_local(local, at), over.bytes);
    let ((x, part), next) = beside((x, over.part), next)?;
    let (part, e) = beside(part, behind_kept(alloc, at, local, x, next))?;
    pointer_found(alloc, e, part)
}

// A number plus a pointer.
fn moved_behind(
    alloc: Global,
    work: &mut Work,
    a: IntType,
    at: Pos,
    u: &CoreType,
    x: CoreExpr,
    y: CoreExpr,
) -> Result<Found, Fault>
    ensures { Gives found_of result (state_of work.new) (spec.moved_behind a at (expr_of x) (typed (expr_of y) (type_of u.now)) (state_of work.old)) }
{
    let over = stride_behind(alloc, work.structs.as_slice(), at, u);
    let ((x, y), over) = beside((x, y), over)?;
    let first = work.fresh(CoreType::Int(a));
    let (((x, y), over), first) = beside(((x, y), over), first)?;
    Ok(offset_behind(alloc, at, first, x, y, over)?)
}

// A number plus a number or a pointer.
fn added_to_number(
    alloc: Global,
    work: &mut Work,
    a: IntType,
    at: Pos,
    t: &CoreType,
    u: &CoreType,
    x: CoreExpr,
    y: CoreExpr,
) -> Result<Found, Fault>
    ensures { Gives found_of result (state_of work.new) (spec.added_to at (typed (expr_of x) (type_of t.now)) (typed (expr_of y) (type_of u.now)) (Some a) (state_of work.old)) }
{
    match int_of(u) {
        Some(_) => arithmetic(alloc, BinOp::Add, at, t, u, x, y),
        None => moved_behind(alloc, work, a, at, u, x, y),
    }
}

/// `+`.
pub fn added(
    alloc: Global,
    work: &mut Work,
    at: Pos,
    t: &CoreType,
    u: &CoreType,
    x: CoreExpr,
    y: CoreExpr,
) -> Result<Found, Fault>
    ensures { Gives found_of result (state_of work.new) (spec.added at (typed (expr_of x) (type_of t.now)) (typed (expr_of y) (type_of u.now)) (state_of work.old)) }
{
    match int_of(t) {
        Some(a) => added_to_number(alloc, work, a, at, t, u, x, y),
        None => moved(alloc, work.structs.as_slice(), at, t, u, x, y),
    }
}
