//! What operators want of places and values, and conversions.

ghost use Rattle.std.specs.Prelude.{◌≡◌, IfOk, MatchResult, None, Some};
ghost use Rattle.nesc_core.specs.Parts.{same_int};
ghost use Rattle.nesc_core.specs.View.{type_of, expr_of};
ghost use Rattle.elab_meaning.specs.Answers.{Follows};
ghost use Rattle.elab_meaning.specs.Convert as spec;
ghost use Rattle.elab_meaning.specs.Convert.{a_value};
ghost use Rattle.elab_meaning.specs.View.{found_of, typed_of, target_of};

use crate::carried::{fitting, without_type};
use elab_meaning::{Found, Target, Typed};
use nesc_core::{CoreExpr, CoreType, is_same_type};
use nm_base::{Fault, IntType, NoMemory, Pos, Refusal, beside};
use std::alloc::Global;

/// The refusal of what does not fit.
pub fn bad_type<T>(at: Pos) -> Result<T, Fault>
    ensures { result ≡ Err (Fault.Refused (Refusal.BadType at)) }
{
    Err(Fault::Refused(Refusal::BadType(at)))
}

/// The refusal of a name that names nothing here.
pub fn unknown_name<T>(at: Pos) -> Result<T, Fault>
    ensures { result ≡ Err (Fault.Refused (Refusal.UnknownName at)) }
{
    Err(Fault::Refused(Refusal::UnknownName(at)))
}

/// The refusal of what is no constant.
pub fn not_constant<T>(at: Pos) -> Result<T, Fault>
    ensures { result ≡ Err (Fault.Refused (Refusal.NotConstant at)) }
{
    Err(Fault::Refused(Refusal::NotConstant(at)))
}

/// A value.
pub fn value_found(expr: CoreExpr, ty: CoreType) -> Found
    ensures { found_of result ≡ a_value (record { expr = expr_of expr; ty = type_of ty }) }
{
    Found::Value(Typed { expr, ty })
}

/// A copy of a type.
pub fn copied(alloc: Global, t: &CoreType) -> Result<CoreType, NoMemory>
    ensures { IfOk result (λ r. type_of r ≡ type_of t.now) }
{
    Ok(match t {
        CoreType::Void => CoreType::Void,
        CoreType::Int(int) => CoreType::Int(*int),
        CoreType::Pointer(part) => CoreType::Pointer(Box::new(alloc, copied(alloc, part)?)?),
        CoreType::Array(part, n) => CoreType::Array(Box::new(alloc, copied(alloc, part)?)?, *n),
        CoreType::Struct(k) => CoreType::Struct(*k),
    })
}

// ---- what a type is

fn is_same_int(t: IntType, u: IntType) -> bool
    ensures { result ≡ same_int t u }
{
    t == u
}

/// Whether it is the type of nothing.
pub fn is_void(t: &CoreType) -> bool
    ensures { result ≡ spec.is_void (type_of t.now) }
{
    match t {
        CoreType::Void => true,
        CoreType::Int(_) | CoreType::Pointer(_) | CoreType::Array(_, _) | CoreType::Struct(_) =>
            false,
    }
}

// The type of `NULL` alone.
fn is_null(t: &CoreType) -> bool
    ensures { result ≡ spec.is_null (type_of t.now) }
{
    match t {
        CoreType::Pointer(part) => is_void(part),
        CoreType::Void | CoreType::Int(_) | CoreType::Array(_, _) | CoreType::Struct(_) => false,
    }
}

/// The integer type that a type is.
pub fn int_of(t: &CoreType) -> Option<IntType>
    ensures { result ≡ spec.int_of (type_of t.now) }
{
    match t {
        CoreType::Int(int) => Some(*int),
        CoreType::Void | CoreType::Pointer(_) | CoreType::Array(_, _) | CoreType::Struct(_) => None,
    }
}

/// The number of the struct that a type is.
pub fn struct_number(t: &CoreType) -> Option<u32>
    ensures { result ≡ spec.struct_number (type_of t.now) }
{
    match t {
        CoreType::Struct(k) => Some(*k),
        CoreType::Void | CoreType::Int(_) | CoreType::Pointer(_) | CoreType::Array(_, _) => None,
    }
}

/// An integer type, or BadType.
pub fn integer(at: Pos, t: &CoreType) -> Result<IntType, Fault>
    ensures { Follows (λ x. x) result (spec.integer at (type_of t.now)) }
{
    match int_of(t) {
        Some(int) => Ok(int),
        None => bad_type(at),
    }
}

/// A number and its type.
pub fn number(at: Pos, v: Typed) -> Result<(CoreExpr, IntType), Fault>
    ensures typed { Follows (λ x. x.1) result (spec.integer at (type_of v.ty)) }
    ensures kept { IfOk result (λ x. expr_of x.0 ≡ expr_of v.expr) }
{
    let t = integer(at, &v.ty);
    beside(without_type(v), t)
}

/// The types of two numbers.
pub fn integers(at: Pos, t: &CoreType, u: &CoreType) -> Result<(IntType, IntType), Fault>
    ensures { Follows (λ ts. ts) result (spec.integers at (type_of t.now) (type_of u.now)) }
{
    let a = integer(at, t)?;
    let b = integer(at, u)?;
    Ok((a, b))
}

/// What a pointer points to.
pub fn pointed(at: Pos, t: CoreType) -> Result<CoreType, Fault>
    ensures { Follows type_of result (spec.pointed at (type_of t)) }
{
    match t {
        CoreType::Pointer(part) => Ok(Box::into_inner(part)),
        CoreType::Void | CoreType::Int(_) | CoreType::Array(_, _) | CoreType::Struct(_) => bad_type(
            at,
        ),
    }
}

fn fits_pointer(t: &CoreType, u: &CoreType) -> bool
    ensures { result ≡ spec.fits_pointer (type_of t.now) (type_of u.now) }
{
    if is_null(u) {
        return true;
    }
    is_same_type(t, u)
}

/// What two pointers of one type point to, of which either may be `NULL`.
pub fn pointed_by_both(at: Pos, t: CoreType, u: CoreType) -> Result<CoreType, Fault>
    ensures { Follows type_of result (spec.pointed_by_both at (type_of t) (type_of u)) }
{
    if is_void(&t) {
        return Ok(u);
    }
    if is_void(&u) {
        return Ok(t);
    }
    if is_same_type(&t, &u) {
        Ok(t)
    } else {
        bad_type(at)
    }
}

fn is_scalar(t: &CoreType) -> bool
    ensures { result ≡ spec.is_scalar (type_of t.now) }
{
    match t {
        CoreType::Int(_) | CoreType::Pointer(_) => true,
        CoreType::Void | CoreType::Array(_, _) | CoreType::Struct(_) => false,
    }
}

/// A number or a pointer, as a test.
pub fn scalar(at: Pos, v: Typed) -> Result<CoreExpr, Fault>
    ensures { Follows expr_of result (spec.scalar at (typed_of v)) }
{
    let fits = is_scalar(&v.ty);
    fitting(at, fits, without_type(v))
}

// ---- conversions

/// A number converted to a type; to the same type there is nothing to do.
pub fn to_int(alloc: Global, to: IntType, from: IntType, e: CoreExpr) -> Result<CoreExpr, NoMemory>
    ensures { IfOk result (λ r. expr_of r ≡ spec.to_int to from (expr_of e)) }
{
    if is_same_int(to, from) {
        return Ok(e);
    }
    Ok(CoreExpr::Convert(to, Box::new(alloc, e)?))
}

fn is_pointer(t: &CoreType) -> bool
    ensures { result ≡ spec.is_pointer (type_of t.now) }
{
    match t {
        CoreType::Pointer(_) => true,
        CoreType::Void | CoreType::Int(_) | CoreType::Array(_, _) | CoreType::Struct(_) => false,
    }
}

fn stays_pointer(to: &CoreType, from: &CoreType) -> bool
    ensures { result ≡ spec.stays_pointer (type_of to.now) (type_of from.now) }
{
    is_pointer(to) && fits_pointer(to, from)
}

// From which type a number is to be converted to which; a pointer stays.
fn conversion(at: Pos, to: &CoreType, from: &CoreType) -> Result<Option<(IntType, IntType)>, Fault>
    ensures { Follows (λ c. c) result (spec.conversion at (type_of to.now) (type_of from.now)) }
{
    match int_of(to) {
        Some(int) => Ok(Some((int, integer(at, from)?))),
        None => {
            if stays_pointer(to, from) {
                Ok(None)
            } else {
                bad_type(at)
            }
        }
    }
}

fn by_conversion(
    alloc: Global,
    c: Option<(IntType, IntType)>,
    e: CoreExpr,
) -> Result<CoreExpr, NoMemory>
    ensures { IfOk result (λ r. expr_of r ≡ spec.by_conversion c (expr_of e)) }
{
    match c {
        None => Ok(e),
        Some((to, from)) => to_int(alloc, to, from, e),
    }
}

/// A value as one of this type.
pub fn converted(alloc: Global, at: Pos, to: &CoreType, v: Typed) -> Result<CoreExpr, Fault>
    ensures { Follows expr_of result (spec.converted at (type_of to.now) (typed_of v)) }
{
    let c = conversion(at, to, &v.ty);
    let (e, c) = beside(without_type(v), c)?;
    Ok(by_conversion(alloc, c, e)?)
}

// ---- places

/// A place, which `&` wants.
pub fn a_target(at: Pos, f: Found) -> Result<Target, Fault>
    ensures { Follows target_of result (spec.a_target at (found_of f)) }
{
    match f {
        Found::Place(place, indexes, ty, _) => Ok(Target { place, indexes, ty }),
        Found::Value(_) => bad_type(at),
        Found::Copy(_, _, _) => bad_type(at),
    }
}

/// The left side of an assignment.
pub fn assignable(at: Pos, f: Found) -> Result<Target, Fault>
    ensures { Follows target_of result (spec.assignable at (found_of f)) }
{
    match f {
        Found::Place(place, indexes, ty, false) => Ok(Target { place, indexes, ty }),
        Found::Place(_, _, _, true) | Found::Value(_) | Found::Copy(_, _, _) => Err(Fault::Refused(
            Refusal::NotAssignable(at),
        )),
    }
}
