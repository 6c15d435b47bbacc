//! Logical operators and comma.

ghost use Rattle.std.specs.Prelude.{◌≡◌, IfOk};
ghost use Rattle.elab_meaning.specs.Answers.{Follows};
ghost use Rattle.elab_meaning.specs.Operators as spec;
ghost use Rattle.elab_meaning.specs.View.{found_of, typed_of};

use crate::carried::{boxed_pair, without_type};
use crate::found::{scalar, value_found};
use elab_meaning::{Found, Typed};
use nesc_core::{CoreExpr, CoreType};
use nm_base::{Fault, IntType, NoMemory, Pos, beside};
use std::alloc::Global;

/// `&&`.
pub fn both(alloc: Global, at: Pos, x: Typed, y: Typed) -> Result<Found, Fault>
    ensures { Follows found_of result (spec.both at (typed_of x) (typed_of y)) }
{
    let (y, a) = beside(y, scalar(at, x))?;
    let (a, b) = beside(a, scalar(at, y))?;
    let (a, b) = boxed_pair(alloc, a, b)?;
    Ok(value_found(CoreExpr::And(a, b), CoreType::Int(IntType::I16)))
}

/// `||`.
pub fn either(alloc: Global, at: Pos, x: Typed, y: Typed) -> Result<Found, Fault>
    ensures { Follows found_of result (spec.either at (typed_of x) (typed_of y)) }
{
    let (y, a) = beside(y, scalar(at, x))?;
    let (a, b) = beside(a, scalar(at, y))?;
    let (a, b) = boxed_pair(alloc, a, b)?;
    Ok(value_found(CoreExpr::Or(a, b), CoreType::Int(IntType::I16)))
}

/// `,`.
pub fn comma(alloc: Global, x: Typed, y: Typed) -> Result<Found, NoMemory>
    ensures { IfOk result (λ r. found_of r ≡ spec.comma (typed_of x) (typed_of y)) }
{
    let (ty, (a, b)) = beside(y.ty, boxed_pair(alloc, without_type(x), y.expr))?;
    Ok(value_found(CoreExpr::Comma(a, b), ty))
}
