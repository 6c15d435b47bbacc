//! Operators before a number or a pointer.

ghost use Rattle.std.specs.Prelude.{◌≡◌, IfOk};
ghost use Rattle.nesc_core.specs.Plain as core;
ghost use Rattle.nesc_core.specs.View.{expr_of};
ghost use Rattle.elab_meaning.specs.Answers.{Follows};
ghost use Rattle.elab_meaning.specs.Operators as spec;
ghost use Rattle.elab_meaning.specs.View.{found_of, typed_of};

use crate::carried::boxed_pair;
use crate::found::{int_of, number, scalar, to_int, value_found};
use elab_meaning::{Found, Typed};
use nesc_core::{BinOp, CoreExpr, CoreType, UnOp};
use nesc_types::promoted;
use nm_base::{Fault, IntType, NoMemory, Pos};
use std::alloc::Global;

/// An operator between two values at one type.
pub fn bin(
    alloc: Global,
    o: BinOp,
    t: IntType,
    a: CoreExpr,
    b: CoreExpr,
) -> Result<CoreExpr, NoMemory>
    ensures { IfOk result (λ r. expr_of r ≡ core.bin o t (expr_of a) (expr_of b)) }
{
    let (a, b) = boxed_pair(alloc, a, b)?;
    Ok(CoreExpr::Bin(o, t, a, b))
}

fn un(alloc: Global, o: UnOp, t: IntType, e: CoreExpr) -> Result<CoreExpr, NoMemory>
    ensures { IfOk result (λ r. expr_of r ≡ core.un o t (expr_of e)) }
{
    Ok(CoreExpr::Un(o, t, Box::new(alloc, e)?))
}

/// A number at its promoted type.
pub fn promoted_value(alloc: Global, t: IntType, e: CoreExpr) -> Result<CoreExpr, NoMemory>
    ensures { IfOk result (λ r. expr_of r ≡ spec.promoted_value t (expr_of e)) }
{
    to_int(alloc, promoted(t), t, e)
}

/// `+` before a number.
pub fn plus(alloc: Global, at: Pos, v: Typed) -> Result<Found, Fault>
    ensures { Follows found_of result (spec.plus at (typed_of v)) }
{
    let (e, t) = number(at, v)?;
    let e = promoted_value(alloc, t, e)?;
    Ok(value_found(e, CoreType::Int(promoted(t))))
}

/// A number at its promoted type, negated.
pub fn negated(alloc: Global, t: IntType, e: CoreExpr) -> Result<CoreExpr, NoMemory>
    ensures { IfOk result (λ r. expr_of r ≡ spec.negated t (expr_of e)) }
{
    let operand = promoted_value(alloc, t, e)?;
    un(alloc, UnOp::Neg, promoted(t), operand)
}

/// `-` before a number.
pub fn minus(alloc: Global, at: Pos, v: Typed) -> Result<Found, Fault>
    ensures { Follows found_of result (spec.minus at (typed_of v)) }
{
    let (e, t) = number(at, v)?;
    let e = negated(alloc, t, e)?;
    Ok(value_found(e, CoreType::Int(promoted(t))))
}

/// `~`.
pub fn complement(alloc: Global, at: Pos, v: Typed) -> Result<Found, Fault>
    ensures { Follows found_of result (spec.complement at (typed_of v)) }
{
    let (e, t) = number(at, v)?;
    let operand = promoted_value(alloc, t, e)?;
    let e = un(alloc, UnOp::Not, promoted(t), operand)?;
    Ok(value_found(e, CoreType::Int(promoted(t))))
}

/// A pointer as its address.
pub fn address(alloc: Global, e: CoreExpr) -> Result<CoreExpr, NoMemory>
    ensures { IfOk result (λ r. expr_of r ≡ spec.address (expr_of e)) }
{
    Ok(CoreExpr::Convert(IntType::U16, Box::new(alloc, e)?))
}

// A test of a number or, by its address, a pointer.
fn zero_test(alloc: Global, t: Option<IntType>, e: CoreExpr) -> Result<CoreExpr, NoMemory>
    ensures { IfOk result (λ r. expr_of r ≡ spec.zero_test t (expr_of e)) }
{
    match t {
        Some(t) => un(alloc, UnOp::IsZero, t, e),
        None => un(alloc, UnOp::IsZero, IntType::U16, address(alloc, e)?),
    }
}

/// `!`, of a number or a pointer.
pub fn is_zero(alloc: Global, at: Pos, v: Typed) -> Result<Found, Fault>
    ensures { Follows found_of result (spec.is_zero at (typed_of v)) }
{
    let t = int_of(&v.ty);
    let tested = scalar(at, v)?;
    let e = zero_test(alloc, t, tested)?;
    Ok(value_found(e, CoreType::Int(IntType::I16)))
}
