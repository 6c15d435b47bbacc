//! Arithmetic and shifts.

ghost use Rattle.std.specs.Prelude.{◌≡◌, IfOk};
ghost use Rattle.nesc_core.specs.View.{expr_of, type_of};
ghost use Rattle.elab_meaning.specs.Answers.{Follows};
ghost use Rattle.elab_meaning.specs.Convert.{typed};
ghost use Rattle.elab_meaning.specs.Operators as spec;
ghost use Rattle.elab_meaning.specs.View.{found_of};

use elab_meaning::Found;
use elab_values::{bin, compared_numbers, integers, promoted_value, value_found};
use nesc_core::{BinOp, CoreExpr, CoreType};
use nesc_types::{common, promoted};
use nm_base::{Fault, IntType, NoMemory, Pos, beside};
use std::alloc::Global;

// Two numbers at their common type.
fn at_common(
    alloc: Global,
    o: BinOp,
    a: IntType,
    b: IntType,
    x: CoreExpr,
    y: CoreExpr,
) -> Result<CoreExpr, NoMemory>
    ensures { IfOk result (λ r. expr_of r ≡ spec.at_common o a b (expr_of x) (expr_of y)) }
{
    let sides = compared_numbers(alloc, a, b, x, y)?;
    bin(alloc, o, sides.at_type, sides.first, sides.second)
}

/// An operator between two numbers at their common type.
pub fn arithmetic(
    alloc: Global,
    o: BinOp,
    at: Pos,
    t: &CoreType,
    u: &CoreType,
    x: CoreExpr,
    y: CoreExpr,
) -> Result<Found, Fault>
    ensures { Follows found_of result (spec.arithmetic o at (typed (expr_of x) (type_of t.now)) (typed (expr_of y) (type_of u.now))) }
{
    let types = integers(at, t, u);
    let ((x, y), (a, b)) = beside((x, y), types)?;
    let e = at_common(alloc, o, a, b, x, y)?;
    Ok(value_found(e, CoreType::Int(common(a, b))))
}

// Each number at its own promoted type.
fn at_promoted(
    alloc: Global,
    o: BinOp,
    a: IntType,
    b: IntType,
    x: CoreExpr,
    y: CoreExpr,
) -> Result<CoreExpr, NoMemory>
    ensures { IfOk result (λ r. expr_of r ≡ spec.at_promoted o a b (expr_of x) (expr_of y)) }
{
    let (y, first) = beside(y, promoted_value(alloc, a, x))?;
    let (first, second) = beside(first, promoted_value(alloc, b, y))?;
    bin(alloc, o, promoted(a), first, second)
}

/// A shift, at the promoted type of its left side.
pub fn shifted(
    alloc: Global,
    o: BinOp,
    at: Pos,
    t: &CoreType,
    u: &CoreType,
    x: CoreExpr,
    y: CoreExpr,
) -> Result<Found, Fault>
    ensures { Follows found_of result (spec.shifted o at (typed (expr_of x) (type_of t.now)) (typed (expr_of y) (type_of u.now))) }
{
    let types = integers(at, t, u);
    let ((x, y), (a, b)) = beside((x, y), types)?;
    let e = at_promoted(alloc, o, a, b, x, y)?;
    Ok(value_found(e, CoreType::Int(promoted(a))))
}
