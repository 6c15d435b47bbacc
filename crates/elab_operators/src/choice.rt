//! `?:`.

ghost use Rattle.std.specs.Prelude.{◌≡◌, IfOk, None};
ghost use Rattle.nesc_core.specs.Plain as core;
ghost use Rattle.nesc_core.specs.View.{expr_of, type_of};
ghost use Rattle.elab_meaning.specs.Answers.{Follows};
ghost use Rattle.elab_meaning.specs.Convert as convert;
ghost use Rattle.elab_meaning.specs.Convert.{typed};
ghost use Rattle.elab_meaning.specs.Operators as spec;
ghost use Rattle.nesc_types.specs.Conversions as types;
ghost use Rattle.elab_meaning.specs.View.{found_of, typed_of};

use crate::comparisons::together;
use crate::pointers::pointer_found;
use elab_meaning::{Found, Typed};
use elab_values::{
    boxed_pair, compared_numbers, fitting, int_of, integer, is_void, scalar, value_found,
};
use nesc_core::{CoreExpr, CoreType};
use nesc_types::common;
use nm_base::{Fault, IntType, NoMemory, Pos, beside};
use std::alloc::Global;

// Two branches in their boxes, behind a test.
fn choice(alloc: Global, test: CoreExpr, y: CoreExpr, z: CoreExpr) -> Result<CoreExpr, NoMemory>
    ensures { IfOk result (λ r. expr_of r ≡ core.choice (expr_of test) (expr_of y) (expr_of z)) }
{
    let (test, branches) = beside(test, boxed_pair(alloc, y, z))?;
    let ((first, second), test) = beside(branches, Box::new(alloc, test))?;
    Ok(CoreExpr::Cond(test, first, second))
}

// One of two numbers, at their common type.
fn number_chosen(
    alloc: Global,
    test: CoreExpr,
    a: IntType,
    b: IntType,
    y: CoreExpr,
    z: CoreExpr,
) -> Result<CoreExpr, NoMemory>
    ensures { IfOk result (λ r. expr_of r ≡ core.choice (expr_of test) (convert.to_int (types.common a b) a (expr_of y)) (convert.to_int (types.common a b) b (expr_of z))) }
{
    let (test, sides) = beside(test, compared_numbers(alloc, a, b, y, z))?;
    choice(alloc, test, sides.first, sides.second)
}

fn chosen_numbers(
    alloc: Global,
    at: Pos,
    test: CoreExpr,
    a: IntType,
    u: &CoreType,
    y: CoreExpr,
    z: CoreExpr,
) -> Result<Found, Fault>
    ensures { Follows found_of result (spec.chosen_numbers at (expr_of test) a (expr_of y) (typed (expr_of z) (type_of u.now))) }
{
    let b = integer(at, u);
    let ((test, (y, z)), b) = beside((test, (y, z)), b)?;
    let e = number_chosen(alloc, test, a, b, y, z)?;
    Ok(value_found(e, CoreType::Int(common(a, b))))
}

fn chosen_voids(
    alloc: Global,
    at: Pos,
    test: CoreExpr,
    u: &CoreType,
    y: CoreExpr,
    z: CoreExpr,
) -> Result<Found, Fault>
    ensures { Follows found_of result (spec.chosen_voids at (expr_of test) (expr_of y) (typed (expr_of z) (type_of u.now))) }
{
    let fits = is_void(u);
    let (test, (y, z)) = fitting(at, fits, (test, (y, z)))?;
    let e = choice(alloc, test, y, z)?;
    Ok(value_found(e, CoreType::Void))
}

fn pointer_chosen(
    alloc: Global,
    test: CoreExpr,
    y: CoreExpr,
    z: CoreExpr,
    part: CoreType,
) -> Result<Found, NoMemory>
    ensures { IfOk result (λ r. found_of r ≡ convert.value_found (core.choice (expr_of test) (expr_of y) (expr_of z)) (core.pointer (type_of part))) }
{
    let (part, e) = beside(part, choice(alloc, test, y, z))?;
    pointer_found(alloc, e, part)
}

fn chosen_pointers(
    alloc: Global,
    at: Pos,
    test: CoreExpr,
    t: &CoreType,
    u: &CoreType,
    y: CoreExpr,
    z: CoreExpr,
) -> Result<Found, Fault>
    ensures { Follows found_of result (spec.chosen_pointers at (expr_of test) (typed (expr_of y) (type_of t.now)) (typed (expr_of z) (type_of u.now))) }
{
    let part = together(alloc, at, t, u);
    let ((test, (y, z)), part) = beside((test, (y, z)), part)?;
    Ok(pointer_chosen(alloc, test, y, z, part)?)
}

// Two voids, or two pointers of one type.
fn chosen_others(
    alloc: Global,
    at: Pos,
    test: CoreExpr,
    t: &CoreType,
    u: &CoreType,
    y: CoreExpr,
    z: CoreExpr,
) -> Result<Found, Fault>
    ensures { Follows found_of result (spec.chosen_by at (expr_of test) (typed (expr_of y) (type_of t.now)) (typed (expr_of z) (type_of u.now)) None) }
{
    if is_void(t) {
        return chosen_voids(alloc, at, test, u, y, z);
    }
    chosen_pointers(alloc, at, test, t, u, y, z)
}

fn chosen_by(
    alloc: Global,
    at: Pos,
    test: CoreExpr,
    t: &CoreType,
    u: &CoreType,
    y: CoreExpr,
    z: CoreExpr,
) -> Result<Found, Fault>
    ensures { Follows found_of result (spec.chosen_by at (expr_of test) (typed (expr_of y) (type_of t.now)) (typed (expr_of z) (type_of u.now)) (convert.int_of (type_of t.now))) }
{
    match int_of(t) {
        Some(a) => chosen_numbers(alloc, at, test, a, u, y, z),
        None => chosen_others(alloc, at, test, t, u, y, z),
    }
}

/// `?:`, of two numbers, two voids, or two pointers of one type.
pub fn chosen(alloc: Global, at: Pos, x: Typed, y: Typed, z: Typed) -> Result<Found, Fault>
    ensures { Follows found_of result (spec.chosen at (typed_of x) (typed_of y) (typed_of z)) }
{
    let ((y, z), test) = beside((y, z), scalar(at, x))?;
    let first = y.expr;
    let second = z.expr;
    chosen_by(alloc, at, test, &y.ty, &z.ty, first, second)
}
