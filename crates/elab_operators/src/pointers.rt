//! Pointers that are moved or subtracted.

ghost use Rattle.std.specs.Prelude.{◌≡◌, IfOk, None, map};
ghost use Rattle.nesc_core.specs.Plain as core;
ghost use Rattle.nesc_core.specs.View.{expr_of, type_of};
ghost use Rattle.elab_meaning.specs.Answers.{Follows};
ghost use Rattle.elab_meaning.specs.Convert as convert;
ghost use Rattle.elab_meaning.specs.Convert.{typed, value_found as a_value_found};
ghost use Rattle.nm_base.specs.declared.int_type.IntType.TheVariants.{I16};
ghost use Rattle.elab_meaning.specs.Operators as spec;
ghost use Rattle.elab_operators.specs.Strides as strides;
ghost use Rattle.elab_meaning.specs.View.{found_of, stride_of, struct_of};

use crate::numbers::arithmetic;
use elab_meaning::{Found, Stride, Struct};
use elab_values::{
    boxed_pair, copied, int_of, integer, negated, offset, pointed, pointed_by_both, size_behind,
    stride, value_found,
};
use nesc_core::{BinOp, CoreExpr, CoreType};
use nm_base::{Fault, IntType, NoMemory, Pos, beside};
use std::alloc::Global;

/// A pointer moved by a number of elements of so many bytes.
pub fn offset_by(alloc: Global, p: CoreExpr, i: CoreExpr, bytes: u32) -> Result<CoreExpr, NoMemory>
    ensures { IfOk result (λ r. expr_of r ≡ core.offset (expr_of p) (expr_of i) bytes) }
{
    let (p, i) = boxed_pair(alloc, p, i)?;
    Ok(CoreExpr::Offset(p, i, bytes))
}

/// A value that is a pointer to the type.
pub fn pointer_found(alloc: Global, e: CoreExpr, part: CoreType) -> Result<Found, NoMemory>
    ensures { IfOk result (λ r. found_of r ≡ a_value_found (expr_of e) (core.pointer (type_of part))) }
{
    let (e, part) = beside(e, Box::new(alloc, part))?;
    Ok(value_found(e, CoreType::Pointer(part)))
}

// A pointer moved by a number of what it moves over.
fn moved_over(alloc: Global, p: CoreExpr, i: CoreExpr, over: Stride) -> Result<Found, NoMemory>
    ensures { IfOk result (λ r. found_of r ≡ a_value_found (core.offset (expr_of p) (expr_of i) over.bytes) (core.pointer (type_of over.part))) }
{
    let e = offset_by(alloc, p, i, over.bytes);
    let (part, e) = beside(over.part, e)?;
    pointer_found(alloc, e, part)
}

/// What a pointer of the type moves over.
pub fn stride_behind(
    alloc: Global,
    structs: &[Struct],
    at: Pos,
    t: &CoreType,
) -> Result<Stride, Fault>
    ensures { Follows stride_of result (convert.stride (map struct_of structs.now) at (type_of t.now)) }
{
    stride(structs, at, copied(alloc, t)?)
}

/// What a pointer moves over by a number of the type u.
pub fn moved_stride(
    alloc: Global,
    structs: &[Struct],
    at: Pos,
    t: &CoreType,
    u: &CoreType,
) -> Result<Stride, Fault>
    ensures { Follows stride_of result (strides.moved_stride (map struct_of structs.now) at (type_of t.now) (type_of u.now)) }
{
    integer(at, u)?;
    stride_behind(alloc, structs, at, t)
}

/// A pointer plus a number.
pub fn moved(
    alloc: Global,
    structs: &[Struct],
    at: Pos,
    t: &CoreType,
    u: &CoreType,
    x: CoreExpr,
    y: CoreExpr,
) -> Result<Found, Fault>
    ensures { Follows found_of result (spec.moved (map struct_of structs.now) at (typed (expr_of x) (type_of t.now)) (typed (expr_of y) (type_of u.now))) }
{
    let over = moved_stride(alloc, structs, at, t, u);
    let ((x, y), over) = beside((x, y), over)?;
    Ok(moved_over(alloc, x, y, over)?)
}

// A pointer minus a number.
fn moved_back(
    alloc: Global,
    structs: &[Struct],
    at: Pos,
    t: CoreType,
    b: IntType,
    x: CoreExpr,
    y: CoreExpr,
) -> Result<Found, Fault>
    ensures { Follows found_of result (spec.moved_back (map struct_of structs.now) at (type_of t) b (expr_of x) (expr_of y)) }
{
    let ((t, x), count) = beside((t, x), negated(alloc, b, y))?;
    let e = offset(alloc, structs, at, x, count, &t);
    let (t, e) = beside(t, e)?;
    Ok(pointer_found(alloc, e, t)?)
}

// The size of what two pointers point to, of which the first points to t.
fn apart(structs: &[Struct], at: Pos, t: CoreType, u: CoreType) -> Result<u32, Fault>
    ensures { Follows (λ n. n) result (spec.apart (map struct_of structs.now) at (type_of t) (type_of u)) }
{
    let (t, v) = beside(t, pointed(at, u))?;
    let w = pointed_by_both(at, t, v)?;
    size_behind(structs, at, &w)
}

fn apart_from(
    alloc: Global,
    structs: &[Struct],
    at: Pos,
    t: CoreType,
    u: &CoreType,
) -> Result<u32, Fault>
    ensures { Follows (λ n. n) result (spec.apart (map struct_of structs.now) at (type_of t) (type_of u.now)) }
{
    let (t, second) = beside(t, copied(alloc, u))?;
    apart(structs, at, t, second)
}

fn distance_found(alloc: Global, x: CoreExpr, y: CoreExpr, bytes: u32) -> Result<Found, NoMemory>
    ensures { IfOk result (λ r. found_of r ≡ a_value_found (core.distance (expr_of x) (expr_of y) bytes) (core.int I16)) }
{
    let (x, y) = boxed_pair(alloc, x, y)?;
    Ok(value_found(CoreExpr::Distance(x, y, bytes), CoreType::Int(IntType::I16)))
}

// A pointer to t minus a pointer.
fn distance(
    alloc: Global,
    structs: &[Struct],
    at: Pos,
    t: CoreType,
    u: &CoreType,
    x: CoreExpr,
    y: CoreExpr,
) -> Result<Found, Fault>
    ensures { Follows found_of result (spec.distance (map struct_of structs.now) at (type_of t) (expr_of x) (typed (expr_of y) (type_of u.now))) }
{
    let n = apart_from(alloc, structs, at, t, u);
    let ((x, y), n) = beside((x, y), n)?;
    Ok(distance_found(alloc, x, y, n)?)
}

fn pointed_copy(alloc: Global, at: Pos, t: &CoreType) -> Result<CoreType, Fault>
    ensures { Follows type_of result (convert.pointed at (type_of t.now)) }
{
    pointed(at, copied(alloc, t)?)
}

// A pointer minus a number or a pointer.
fn subtracted_from_pointer(
    alloc: Global,
    structs: &[Struct],
    at: Pos,
    t: &CoreType,
    u: &CoreType,
    x: CoreExpr,
    y: CoreExpr,
) -> Result<Found, Fault>
    ensures { Follows found_of result (spec.subtracted_by (map struct_of structs.now) at (typed (expr_of x) (type_of t.now)) (typed (expr_of y) (type_of u.now)) None) }
{
    let part = pointed_copy(alloc, at, t);
    let ((x, y), part) = beside((x, y), part)?;
    match int_of(u) {
        Some(b) => moved_back(alloc, structs, at, part, b, x, y),
        None => distance(alloc, structs, at, part, u, x, y),
    }
}

/// `-` between two numbers, a pointer and a number, or two pointers.
pub fn subtracted(
    alloc: Global,
    structs: &[Struct],
    at: Pos,
    t: &CoreType,
    u: &CoreType,
    x: CoreExpr,
    y: CoreExpr,
) -> Result<Found, Fault>
    ensures { Follows found_of result (spec.subtracted (map struct_of structs.now) at (typed (expr_of x) (type_of t.now)) (typed (expr_of y) (type_of u.now))) }
{
    match int_of(t) {
        Some(_) => arithmetic(alloc, BinOp::Sub, at, t, u, x, y),
        None => subtracted_from_pointer(alloc, structs, at, t, u, x, y),
    }
}
