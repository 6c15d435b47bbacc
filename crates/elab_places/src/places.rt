//! Places as values, addresses, elements and fields.

ghost use Rattle.std.specs.Prelude.{◌≡◌, IfOk, bytes_eq, false, map, slice_get, slice_index_or};
ghost use Rattle.nesc_core.specs.View.{type_of, expr_of, field_of, place_of};
ghost use Rattle.elab_meaning.specs.Answers.{Follows, Gives};
ghost use Rattle.elab_meaning.specs.Convert as convert;
ghost use Rattle.elab_meaning.specs.Operators as spec;
ghost use Rattle.elab_meaning.specs.Places as places;
ghost use Rattle.elab_meaning.specs.Scope.{field_from};
ghost use Rattle.elab_meaning.specs.View.{field_found_of, found_of, number_and_type, state_of, struct_of, typed_of};

use elab_meaning::{FieldFound, Found, Struct, Typed, Work};
use elab_values::{
    a_target, bad_type, copied, pointed, pointer_to, size_behind, struct_number, unknown_name,
    value_found,
};
use nesc_core::{CoreExpr, CoreType, Field, Place};
use nm_base::{Fault, IntType, Name, NoMemory, Pos};
use std::alloc::Global;
use std::collections::VecDeque;

// ---- places as values

// The address of an array's first element.
fn first_element(alloc: Global, p: Place) -> Result<CoreExpr, NoMemory>
    ensures { IfOk result (λ r. expr_of r ≡ places.first_element (place_of p)) }
{
    let zero = Box::new(alloc, CoreExpr::Const(IntType::I16, 0))?;
    Ok(CoreExpr::Addr(Place::Index(Box::new(alloc, p)?, zero)))
}

// An array as a value.
fn decayed(
    alloc: Global,
    work: &mut Work,
    at: Pos,
    p: Place,
    part: CoreType,
) -> Result<Typed, Fault>
    ensures { Gives typed_of result (state_of work.new) (places.decayed at (place_of p) (type_of part) (state_of work.old)) }
{
    work.take(at, &p)?;
    let ty = pointer_to(alloc, work.structs.as_slice(), at, part)?;
    let expr = first_element(alloc, p)?;
    Ok(Typed { expr, ty })
}

/// A place as a value: an array is the address of its first element, a number or a pointer is read.
pub fn read_at(
    alloc: Global,
    work: &mut Work,
    at: Pos,
    p: Place,
    t: CoreType,
) -> Result<Typed, Fault>
    ensures { Gives typed_of result (state_of work.new) (places.read_at at (place_of p) (type_of t) (state_of work.old)) }
{
    match t {
        CoreType::Array(part, _) => decayed(alloc, work, at, p, Box::into_inner(part)),
        CoreType::Int(_) | CoreType::Pointer(_) => Ok(Typed {
            expr: CoreExpr::Read(p, at),
            ty: t,
        }),
        CoreType::Void | CoreType::Struct(_) => bad_type(at),
    }
}

/// `&`.
pub fn addressed(alloc: Global, work: &mut Work, at: Pos, f: Found) -> Result<Found, Fault>
    ensures { Gives found_of result (state_of work.new) (places.addressed at (found_of f) (state_of work.old)) }
{
    let p = a_target(at, f)?;
    work.take(at, &p.place)?;
    let ty = pointer_to(alloc, work.structs.as_slice(), at, p.ty)?;
    Ok(value_found(CoreExpr::Addr(p.place), ty))
}

// ---- elements

/// What is behind a pointer to this type, which is never const.
pub fn behind(alloc: Global, pointer: CoreExpr, part: CoreType) -> Result<Found, NoMemory>
    ensures { IfOk result (λ r. found_of r ≡ spec.behind (expr_of pointer) (type_of part)) }
{
    let ty = copied(alloc, &part)?;
    let place = Place::Deref(Box::new(alloc, pointer)?, part);
    Ok(Found::Place(place, VecDeque::new(alloc), ty, false))
}

/// `*`.
pub fn dereferenced(alloc: Global, structs: &[Struct], at: Pos, v: Typed) -> Result<Found, Fault>
    ensures { Follows found_of result (spec.dereferenced (map struct_of structs.now) at (typed_of v)) }
{
    let part = pointed(at, v.ty)?;
    size_behind(structs, at, &part)?;
    Ok(behind(alloc, v.expr, part)?)
}

// ---- fields

fn is_field(field: &Field, name: &Name) -> bool
    ensures { result ≡ bytes_eq (field_of field.now).name name.now }
{
    field.name == *name
}

// The number of the field, which is below 2^32 where memory holds the fields.
fn numbered(alloc: Global, k: usize, t: &CoreType) -> Result<(u32, CoreType), Fault>
    ensures { Follows number_and_type result (spec.numbered k (type_of t.now)) }
{
    let Ok(number) = u32::try_from(k) else {
        return Err(Fault::NoMemory);
    };
    Ok((number, copied(alloc, t)?))
}

#[tactic(auto, using(crate::proofs::Fields::fields))]
fn field_named(
    alloc: Global,
    at: Pos,
    fields: &[Field],
    name: &Name,
) -> Result<(u32, CoreType), Fault>
    ensures { Follows number_and_type result (spec.field_named at (field_from 0 (map field_of fields.now) name.now)) }
{
    for (k, field) in fields.iter().enumerate() {
        if is_field(field, name) {
            return numbered(alloc, k, &field.ty);
        }
    }
    unknown_name(at)
}

fn is_const_field(consts: &[bool], k: u32) -> bool
    ensures { result ≡ slice_index_or consts.now k false }
{
    match consts.get(k as usize) {
        None => false,
        Some(is_const) => *is_const,
    }
}

fn field_in(alloc: Global, at: Pos, s: &Struct, name: &Name) -> Result<FieldFound, Fault>
    ensures { Follows field_found_of result (spec.field_in at (struct_of s.now) name.now) }
{
    let (number, ty) = field_named(alloc, at, s.fields.as_slice(), name)?;
    let is_const = is_const_field(s.consts.as_slice(), number);
    Ok(FieldFound {
        number,
        ty,
        is_const,
    })
}

#[tactic(auto, using(crate::proofs::Fields::fields))]
fn field_of_struct(
    alloc: Global,
    structs: &[Struct],
    at: Pos,
    k: u32,
    name: &Name,
) -> Result<FieldFound, Fault>
    ensures { Follows field_found_of result (spec.field_of at (slice_get (map struct_of structs.now) k) name.now) }
{
    match structs.get(k as usize) {
        None => bad_type(at),
        Some(found) => field_in(alloc, at, found, name),
    }
}

fn field_at(
    alloc: Global,
    structs: &[Struct],
    at: Pos,
    t: &CoreType,
    name: &Name,
) -> Result<FieldFound, Fault>
    ensures { Follows field_found_of result (spec.field_at (map struct_of structs.now) at name.now (convert.struct_number (type_of t.now))) }
{
    match struct_number(t) {
        None => bad_type(at),
        Some(k) => field_of_struct(alloc, structs, at, k, name),
    }
}

fn is_either(a: bool, b: bool) -> bool
    ensures { result ≡ spec.is_either a b }
{
    a || b
}

fn member_of(
    alloc: Global,
    structs: &[Struct],
    at: Pos,
    p: Place,
    indexes: VecDeque<IntType>,
    t: &CoreType,
    is_const: bool,
    name: &Name,
) -> Result<Found, Fault>
    ensures { Follows found_of result (spec.member_of (map struct_of structs.now) at (place_of p) indexes.items (type_of t.now) is_const name.now) }
{
    let f = field_at(alloc, structs, at, t, name)?;
    let place = Place::Field(Box::new(alloc, p)?, f.number);
    let is_const = is_either(is_const, f.is_const);
    Ok(Found::Place(place, indexes, f.ty, is_const))
}

/// `e.f`, as const as e or f.
pub fn member(
    alloc: Global,
    structs: &[Struct],
    at: Pos,
    f: Found,
    name: &Name,
) -> Result<Found, Fault>
    ensures { Follows found_of result (spec.member (map struct_of structs.now) at (found_of f) name.now) }
{
    match f {
        Found::Place(p, indexes, t, is_const) => member_of(
            alloc, structs, at, p, indexes, &t, is_const, name,
        ),
        Found::Value(_) => bad_type(at),
        Found::Copy(_, _, _) => bad_type(at),
    }
}

/// `e->f`.
pub fn member_behind(
    alloc: Global,
    structs: &[Struct],
    at: Pos,
    v: Typed,
    name: &Name,
) -> Result<Found, Fault>
    ensures { Follows found_of result (spec.member_behind (map struct_of structs.now) at (typed_of v) name.now) }
{
    let part = pointed(at, v.ty)?;
    let ty = copied(alloc, &part)?;
    let place = Place::Deref(Box::new(alloc, v.expr)?, part);
    member_of(
        alloc,
        structs,
        at,
        place,
        VecDeque::new(alloc),
        &ty,
        false,
        name,
    )
}
