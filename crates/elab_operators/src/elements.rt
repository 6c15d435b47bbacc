//! Elements of arrays and of what pointers point to.

ghost use Rattle.std.specs.Prelude.{◌≡◌, ◌∷◌, IfOk, map};
ghost use Rattle.nesc_core.specs.Plain as core;
ghost use Rattle.nesc_core.specs.View.{expr_of, place_of, type_of};
ghost use Rattle.elab_meaning.specs.Answers.{Follows};
ghost use Rattle.elab_meaning.specs.Convert.{typed};
ghost use Rattle.elab_meaning.specs.Operators as spec;
ghost use Rattle.elab_meaning.specs.Places as places;
ghost use Rattle.elab_meaning.specs.View.{found_of, struct_of, typed_of};

use crate::pointers::{moved_stride, offset_by};
use elab_meaning::{Found, Stride, Struct, Typed};
use elab_places::behind;
use elab_values::{bad_type, boxed_pair, integer};
use nesc_core::{CoreExpr, CoreType, Place};
use nm_base::{Fault, IntType, NoMemory, Pos, beside};
use std::alloc::Global;
use std::collections::VecDeque;

// What is so many elements behind a pointer.
fn behind_offset(alloc: Global, p: CoreExpr, i: CoreExpr, over: Stride) -> Result<Found, NoMemory>
    ensures { IfOk result (λ r. found_of r ≡ spec.behind (core.offset (expr_of p) (expr_of i) over.bytes) (type_of over.part)) }
{
    let e = offset_by(alloc, p, i, over.bytes);
    let (part, e) = beside(over.part, e)?;
    behind(alloc, e, part)
}

// An element of what a pointer points to.
fn element_behind(
    alloc: Global,
    structs: &[Struct],
    at: Pos,
    t: &CoreType,
    u: &CoreType,
    v: CoreExpr,
    i: CoreExpr,
) -> Result<Found, Fault>
    ensures { Follows found_of result (spec.element_behind (map struct_of structs.now) at (typed (expr_of v) (type_of t.now)) (typed (expr_of i) (type_of u.now))) }
{
    let over = moved_stride(alloc, structs, at, t, u);
    let ((v, i), over) = beside((v, i), over)?;
    Ok(behind_offset(alloc, v, i, over)?)
}

fn indexed_place(alloc: Global, p: Place, i: CoreExpr) -> Result<Place, NoMemory>
    ensures { IfOk result (λ r. place_of r ≡ core.index (place_of p) (expr_of i)) }
{
    let (p, i) = boxed_pair(alloc, p, i)?;
    Ok(Place::Index(p, i))
}

// The types of the indexes with one more, the last first.
fn with_index(b: IntType, indexes: VecDeque<IntType>) -> Result<VecDeque<IntType>, NoMemory>
    ensures { IfOk result (λ types. types.items ≡ b ∷ indexes.items) }
{
    let mut types = indexes;
    types.push_front(b)?;
    Ok(types)
}

// An element of an array, with the type of its index.
fn element_of(
    alloc: Global,
    at: Pos,
    p: Place,
    indexes: VecDeque<IntType>,
    part: CoreType,
    is_const: bool,
    u: &CoreType,
    i: CoreExpr,
) -> Result<Found, Fault>
    ensures { Follows found_of result (spec.element_of at (place_of p) indexes.items (type_of part) is_const (typed (expr_of i) (type_of u.now))) }
{
    let b = integer(at, u);
    let ((part, (p, i)), b) = beside((part, (p, i)), b)?;
    let (part, place) = beside(part, indexed_place(alloc, p, i))?;
    let ((place, part), types) = beside((place, part), with_index(b, indexes))?;
    Ok(Found::Place(place, types, part, is_const))
}

fn element_at(
    alloc: Global,
    at: Pos,
    p: Place,
    indexes: VecDeque<IntType>,
    t: CoreType,
    is_const: bool,
    u: &CoreType,
    i: CoreExpr,
) -> Result<Found, Fault>
    ensures { Follows found_of result (places.element_at at (place_of p) indexes.items (type_of t) is_const (typed (expr_of i) (type_of u.now))) }
{
    match t {
        CoreType::Array(part, _) => element_of(
            alloc,
            at,
            p,
            indexes,
            Box::into_inner(part),
            is_const,
            u,
            i,
        ),
        CoreType::Void | CoreType::Int(_) | CoreType::Pointer(_) | CoreType::Struct(_) => bad_type(
            at,
        ),
    }
}

/// An element of an array or of what a pointer points to.
pub fn element(
    alloc: Global,
    structs: &[Struct],
    at: Pos,
    base: Found,
    i: Typed,
) -> Result<Found, Fault>
    ensures { Follows found_of result (places.element (map struct_of structs.now) at (found_of base) (typed_of i)) }
{
    let index = i.expr;
    let u = i.ty;
    match base {
        Found::Place(p, indexes, t, is_const) => element_at(
            alloc, at, p, indexes, t, is_const, &u, index,
        ),
        Found::Value(v) => {
            let pointer = v.expr;
            element_behind(alloc, structs, at, &v.ty, &u, pointer, index)
        }
        Found::Copy(_, _, _) => bad_type(at),
    }
}
