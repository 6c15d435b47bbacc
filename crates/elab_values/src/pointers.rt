//! Pointers that move, and what is compared.

ghost use Rattle.std.specs.Prelude.{◌≡◌, IfOk, map};
ghost use Rattle.nesc_core.specs.View.{type_of, expr_of};
ghost use Rattle.elab_meaning.specs.Answers.{Follows};
ghost use Rattle.elab_meaning.specs.Operators as spec;
ghost use Rattle.elab_meaning.specs.View.{sides_of, struct_of};

use crate::arithmetic::address;
use crate::carried::boxed_pair;
use crate::found::to_int;
use crate::sizes::size_behind;
use elab_meaning::{Sides, Struct};
use nesc_core::{CoreExpr, CoreType};
use nesc_types::common;
use nm_base::{Fault, IntType, NoMemory, Pos, beside};
use std::alloc::Global;

/// A pointer moved by a number of elements.
pub fn offset(
    alloc: Global,
    structs: &[Struct],
    at: Pos,
    p: CoreExpr,
    i: CoreExpr,
    t: &CoreType,
) -> Result<CoreExpr, Fault>
    ensures { Follows expr_of result (spec.offset (map struct_of structs.now) at (expr_of p) (expr_of i) (type_of t.now)) }
{
    let n = size_behind(structs, at, t);
    let ((p, i), n) = beside((p, i), n)?;
    let (p, i) = boxed_pair(alloc, p, i)?;
    Ok(CoreExpr::Offset(p, i, n))
}

/// Two numbers at their common type.
pub fn compared_numbers(
    alloc: Global,
    a: IntType,
    b: IntType,
    x: CoreExpr,
    y: CoreExpr,
) -> Result<Sides, NoMemory>
    ensures { IfOk result (λ r. sides_of r ≡ spec.compared_numbers a b (expr_of x) (expr_of y)) }
{
    let at_type = common(a, b);
    let (y, first) = beside(y, to_int(alloc, at_type, a, x))?;
    let (first, second) = beside(first, to_int(alloc, at_type, b, y))?;
    Ok(Sides {
        at_type,
        first,
        second,
    })
}

/// Two pointers as their addresses.
pub fn compared_pointers(alloc: Global, x: CoreExpr, y: CoreExpr) -> Result<Sides, NoMemory>
    ensures { IfOk result (λ r. sides_of r ≡ spec.compared_pointers (expr_of x) (expr_of y)) }
{
    let (y, first) = beside(y, address(alloc, x))?;
    let (first, second) = beside(first, address(alloc, y))?;
    Ok(Sides {
        at_type: IntType::U16,
        first,
        second,
    })
}
