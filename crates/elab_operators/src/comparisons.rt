//! Comparisons.

ghost use Rattle.std.specs.Prelude.{◌≡◌, IfOk, None, Some};
ghost use Rattle.nesc_core.specs.Plain as core;
ghost use Rattle.nesc_core.specs.View.{expr_of, type_of};
ghost use Rattle.elab_meaning.specs.Answers.{Follows, Gives};
ghost use Rattle.elab_meaning.specs.Convert.{typed};
ghost use Rattle.elab_meaning.specs.Operators as spec;
ghost use Rattle.elab_meaning.specs.Places as places;
ghost use Rattle.elab_meaning.specs.View.{found_of, sides_of, state_of};

use elab_meaning::{Found, Sides, Work};
use elab_values::{
    bin, boxed_pair, compared_numbers, compared_pointers, copied, int_of, integer, pointed,
    pointed_by_both, value_found,
};
use nesc_core::{BinOp, CoreExpr, CoreType, Place};
use nm_base::{Fault, IntType, NoMemory, Pos, beside};
use std::alloc::Global;

/// What two pointers of one type point to.
pub fn pointed_together(at: Pos, t: CoreType, u: CoreType) -> Result<CoreType, Fault>
    ensures { Follows type_of result (spec.pointed_together at (type_of t) (type_of u)) }
{
    let (u, v) = beside(u, pointed(at, t))?;
    let (v, w) = beside(v, pointed(at, u))?;
    pointed_by_both(at, v, w)
}

/// What pointers of these types point to together.
pub fn together(alloc: Global, at: Pos, t: &CoreType, u: &CoreType) -> Result<CoreType, Fault>
    ensures { Follows type_of result (spec.pointed_together at (type_of t.now) (type_of u.now)) }
{
    let first = copied(alloc, t)?;
    let (first, second) = beside(first, copied(alloc, u))?;
    pointed_together(at, first, second)
}

// A number of type a and a number.
fn comparable_numbers(
    alloc: Global,
    at: Pos,
    a: IntType,
    u: &CoreType,
    x: CoreExpr,
    y: CoreExpr,
) -> Result<Sides, Fault>
    ensures { Follows sides_of result (spec.comparable_by at (typed (expr_of x) (core.int a)) (typed (expr_of y) (type_of u.now)) (Some a)) }
{
    let b = integer(at, u);
    let ((x, y), b) = beside((x, y), b)?;
    Ok(compared_numbers(alloc, a, b, x, y)?)
}

// Two pointers of one type.
fn comparable_pointers(
    alloc: Global,
    at: Pos,
    t: &CoreType,
    u: &CoreType,
    x: CoreExpr,
    y: CoreExpr,
) -> Result<Sides, Fault>
    ensures { Follows sides_of result (spec.comparable_by at (typed (expr_of x) (type_of t.now)) (typed (expr_of y) (type_of u.now)) None) }
{
    let part = together(alloc, at, t, u);
    let ((x, y), _part) = beside((x, y), part)?;
    Ok(compared_pointers(alloc, x, y)?)
}

// Two numbers, or two pointers of one type.
fn comparable(
    alloc: Global,
    at: Pos,
    t: &CoreType,
    u: &CoreType,
    x: CoreExpr,
    y: CoreExpr,
) -> Result<Sides, Fault>
    ensures { Follows sides_of result (spec.comparable at (typed (expr_of x) (type_of t.now)) (typed (expr_of y) (type_of u.now))) }
{
    match int_of(t) {
        Some(a) => comparable_numbers(alloc, at, a, u, x, y),
        None => comparable_pointers(alloc, at, t, u, x, y),
    }
}

/// A comparison whose sides stand in the order in which they are evaluated.
pub fn compared(
    alloc: Global,
    o: BinOp,
    at: Pos,
    t: &CoreType,
    u: &CoreType,
    x: CoreExpr,
    y: CoreExpr,
) -> Result<Found, Fault>
    ensures { Follows found_of result (spec.compared o at (typed (expr_of x) (type_of t.now)) (typed (expr_of y) (type_of u.now))) }
{
    let c = comparable(alloc, at, t, u, x, y)?;
    let e = bin(alloc, o, c.at_type, c.first, c.second)?;
    Ok(value_found(e, CoreType::Int(IntType::I16)))
}

// ---- the first value waits in a local

/// The value that waits in a local.
pub fn read_local(local: u32, at: Pos) -> CoreExpr
    ensures { expr_of result ≡ core.read (core.local local) at }
{
    CoreExpr::Read(Place::Local(local), at)
}

fn stored_in_local(alloc: Global, at: Pos, local: u32, e: CoreExpr) -> Result<CoreExpr, NoMemory>
    ensures { IfOk result (λ r. expr_of r ≡ core.assign (core.local local) (expr_of e) at) }
{
    Ok(CoreExpr::Assign(Place::Local(local), Box::new(alloc, e)?, at))
}

/// One expression behind another.
pub fn in_turn(alloc: Global, a: CoreExpr, b: CoreExpr) -> Result<CoreExpr, NoMemory>
    ensures { IfOk result (λ r. expr_of r ≡ core.comma (expr_of a) (expr_of b)) }
{
    let (a, b) = boxed_pair(alloc, a, b)?;
    Ok(CoreExpr::Comma(a, b))
}

/// An expression that is evaluated behind another, which goes to a local.
pub fn behind_kept(
    alloc: Global,
    at: Pos,
    local: u32,
    kept: CoreExpr,
    next: CoreExpr,
) -> Result<CoreExpr, NoMemory>
    ensures { IfOk result (λ r. expr_of r ≡ places.behind_kept at local (expr_of kept) (expr_of next)) }
{
    let (next, store) = beside(next, stored_in_local(alloc, at, local, kept))?;
    in_turn(alloc, store, next)
}

fn compared_behind(
    alloc: Global,
    o: BinOp,
    at: Pos,
    local: u32,
    c: Sides,
) -> Result<CoreExpr, NoMemory>
    ensures { IfOk result (λ r. expr_of r ≡ places.behind_kept at local (expr_of c.first) (core.bin o c.at_type (expr_of c.second) (core.read (core.local local) at))) }
{
    let next = bin(alloc, o, c.at_type, c.second, read_local(local, at));
    let (first, next) = beside(c.first, next)?;
    behind_kept(alloc, at, local, first, next)
}

/// A comparison whose second side stands first, while the first value waits in a local.
pub fn exchanged(
    alloc: Global,
    work: &mut Work,
    o: BinOp,
    at: Pos,
    t: &CoreType,
    u: &CoreType,
    x: CoreExpr,
    y: CoreExpr,
) -> Result<Found, Fault>
    ensures { Gives found_of result (state_of work.new) (places.exchanged o at (typed (expr_of x) (type_of t.now)) (typed (expr_of y) (type_of u.now)) (state_of work.old)) }
{
    let c = comparable(alloc, at, t, u, x, y)?;
    let first = work.fresh(CoreType::Int(c.at_type));
    let (c, first) = beside(c, first)?;
    let e = compared_behind(alloc, o, at, first, c)?;
    Ok(value_found(e, CoreType::Int(IntType::I16)))
}
