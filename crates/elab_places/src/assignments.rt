//! Assignments to numbers and pointers.

ghost use Rattle.std.specs.Prelude.{◌≡◌, IfOk, map, None};
ghost use Rattle.nesc_core.specs.Plain as core;
ghost use Rattle.nesc_core.specs.View.{type_of, expr_of, place_of};
ghost use Rattle.elab_meaning.specs.Answers.{Follows};
ghost use Rattle.elab_meaning.specs.Operators as spec;
ghost use Rattle.elab_meaning.specs.View.{found_of, struct_of, target_of, typed_of};

use elab_meaning::{Found, Stride, Struct, Target, Typed};
use elab_values::{
    bad_type, bin, converted, int_of, integer, integers, number, promoted_value, stride, to_int,
    value_found, without_type,
};
use nesc_core::{BinOp, CoreExpr, CoreType, Place};
use nesc_tree::{InOp, PostOp};
use nesc_types::{common, promoted};
use nm_base::{Fault, IntType, NoMemory, Pos, beside};
use std::alloc::Global;

/// `=`, of a number or a pointer.
pub fn assigned(alloc: Global, at: Pos, at_value: Pos, p: Target, v: Typed) -> Result<Found, Fault>
    ensures { Follows found_of result (spec.assigned at at_value (target_of p) (typed_of v)) }
{
    let e = converted(alloc, at_value, &p.ty, v);
    let (p, e) = beside(p, e)?;
    let (p, e) = beside(p, Box::new(alloc, e))?;
    Ok(value_found(CoreExpr::Assign(p.place, e, at), p.ty))
}

// How many bytes a pointer moves for a count.
fn bytes_of(alloc: Global, b: IntType, e: CoreExpr, n: u32) -> Result<CoreExpr, NoMemory>
    ensures { IfOk result (λ r. expr_of r ≡ spec.bytes_of b (expr_of e) n) }
{
    let count = to_int(alloc, IntType::U16, b, e)?;
    let size = CoreExpr::Const(IntType::U16, i64::from(n));
    bin(alloc, BinOp::Mul, IntType::U16, count, size)
}

fn update(
    alloc: Global,
    at: Pos,
    gives_old: bool,
    o: BinOp,
    t: IntType,
    p: Place,
    e: CoreExpr,
    ty: CoreType,
) -> Result<Found, Fault>
    ensures { Follows found_of result (spec.update_found at gives_old o t (place_of p) (expr_of e) (type_of ty)) }
{
    let ((p, ty), e) = beside((p, ty), Box::new(alloc, e))?;
    Ok(value_found(CoreExpr::Update(p, o, t, e, gives_old, at), ty))
}

fn updated_at_common(
    alloc: Global,
    o: BinOp,
    at: Pos,
    gives_old: bool,
    p: Place,
    v: Typed,
    a: IntType,
) -> Result<Found, Fault>
    ensures { Follows found_of result (spec.updated_at_common o at gives_old (place_of p) (typed_of v) a) }
{
    let (p, (e, b)) = beside(p, number(at, v))?;
    let t = common(a, b);
    let (p, e) = beside(p, to_int(alloc, t, b, e))?;
    update(alloc, at, gives_old, o, t, p, e, CoreType::Int(a))
}

fn number_updated(
    alloc: Global,
    o: BinOp,
    at: Pos,
    gives_old: bool,
    p: Target,
    v: Typed,
) -> Result<Found, Fault>
    ensures { Follows found_of result (spec.number_updated o at gives_old (target_of p) (typed_of v)) }
{
    let a = integer(at, &p.ty)?;
    updated_at_common(alloc, o, at, gives_old, p.place, v, a)
}

fn place_alone(p: Target) -> Place
    ensures { place_of result ≡ place_of p.place }
{
    p.place
}

// At the promoted left type.
fn shift_updated(
    alloc: Global,
    o: BinOp,
    at: Pos,
    gives_old: bool,
    p: Target,
    v: Typed,
) -> Result<Found, Fault>
    ensures { Follows found_of result (spec.shift_updated o at gives_old (target_of p) (typed_of v)) }
{
    let types = integers(at, &p.ty, &v.ty);
    let ((p, e), (a, b)) = beside((place_alone(p), without_type(v)), types)?;
    let (p, e) = beside(p, promoted_value(alloc, b, e))?;
    update(alloc, at, gives_old, o, promoted(a), p, e, CoreType::Int(a))
}

// How many bytes a pointer moves for a count, and the pointer's type.
fn pointer_step(
    alloc: Global,
    b: IntType,
    count: CoreExpr,
    over: Stride,
) -> Result<(CoreExpr, CoreType), NoMemory>
    ensures { IfOk result (λ x. (expr_of x.0 ≡ spec.bytes_of b (expr_of count) over.bytes) × (type_of x.1 ≡ core.pointer (type_of over.part))) }
{
    let bytes = over.bytes;
    let (part, e) = beside(over.part, bytes_of(alloc, b, count, bytes))?;
    let (e, part) = beside(e, Box::new(alloc, part))?;
    Ok((e, CoreType::Pointer(part)))
}

// A pointer, as a number.
fn pointer_updated(
    alloc: Global,
    structs: &[Struct],
    o: BinOp,
    at: Pos,
    gives_old: bool,
    p: Target,
    v: Typed,
) -> Result<Found, Fault>
    ensures { Follows found_of result (spec.step_updated_by (map struct_of structs.now) o at gives_old (target_of p) (typed_of v) None) }
{
    let (p, (e, b)) = beside(p, number(at, v))?;
    let place = p.place;
    let over = stride(structs, at, p.ty);
    let ((place, e), over) = beside((place, e), over)?;
    let (place, (e, ty)) = beside(place, pointer_step(alloc, b, e, over))?;
    update(alloc, at, gives_old, o, IntType::U16, place, e, ty)
}

/// `+` and `-`, where the place may hold a pointer.
pub fn step_updated(
    alloc: Global,
    structs: &[Struct],
    o: BinOp,
    at: Pos,
    gives_old: bool,
    p: Target,
    v: Typed,
) -> Result<Found, Fault>
    ensures { Follows found_of result (spec.step_updated (map struct_of structs.now) o at gives_old (target_of p) (typed_of v)) }
{
    match int_of(&p.ty) {
        Some(a) => updated_at_common(alloc, o, at, gives_old, p.place, v, a),
        None => pointer_updated(alloc, structs, o, at, gives_old, p, v),
    }
}

/// An operator before `=`.
pub fn updated(
    alloc: Global,
    structs: &[Struct],
    at: Pos,
    old: bool,
    o: InOp,
    p: Target,
    v: Typed,
) -> Result<Found, Fault>
    ensures { Follows found_of result (spec.updated (map struct_of structs.now) at old o (target_of p) (typed_of v)) }
{
    match o {
        InOp::Mul => number_updated(alloc, BinOp::Mul, at, old, p, v),
        InOp::Div => number_updated(alloc, BinOp::Div, at, old, p, v),
        InOp::Rem => number_updated(alloc, BinOp::Rem, at, old, p, v),
        InOp::Add => step_updated(alloc, structs, BinOp::Add, at, old, p, v),
        InOp::Sub => step_updated(alloc, structs, BinOp::Sub, at, old, p, v),
        InOp::Shl => shift_updated(alloc, BinOp::Shl, at, old, p, v),
        InOp::Shr => shift_updated(alloc, BinOp::Shr, at, old, p, v),
        InOp::And => number_updated(alloc, BinOp::And, at, old, p, v),
        InOp::Xor => number_updated(alloc, BinOp::Xor, at, old, p, v),
        InOp::Or => number_updated(alloc, BinOp::Or, at, old, p, v),
        InOp::Lt
        | InOp::Gt
        | InOp::Le
        | InOp::Ge
        | InOp::Eq
        | InOp::Ne
        | InOp::AndAnd
        | InOp::OrOr => bad_type(at),
    }
}

fn one() -> Typed
    ensures { typed_of result ≡ spec.one }
{
    Typed {
        expr: CoreExpr::Const(IntType::I16, 1),
        ty: CoreType::Int(IntType::I16),
    }
}

/// `++`.
pub fn incremented(
    alloc: Global,
    structs: &[Struct],
    at: Pos,
    old: bool,
    p: Target,
) -> Result<Found, Fault>
    ensures { Follows found_of result (spec.incremented (map struct_of structs.now) at old (target_of p)) }
{
    step_updated(alloc, structs, BinOp::Add, at, old, p, one())
}

/// `--`.
pub fn decremented(
    alloc: Global,
    structs: &[Struct],
    at: Pos,
    old: bool,
    p: Target,
) -> Result<Found, Fault>
    ensures { Follows found_of result (spec.decremented (map struct_of structs.now) at old (target_of p)) }
{
    step_updated(alloc, structs, BinOp::Sub, at, old, p, one())
}

/// `++` or `--` behind a place, which gives the old value.
pub fn stepped(
    alloc: Global,
    structs: &[Struct],
    at: Pos,
    o: PostOp,
    p: Target,
) -> Result<Found, Fault>
    ensures { Follows found_of result (spec.stepped (map struct_of structs.now) at o (target_of p)) }
{
    match o {
        PostOp::Inc => incremented(alloc, structs, at, true, p),
        PostOp::Dec => decremented(alloc, structs, at, true, p),
    }
}

/// A cast.
pub fn cast_to(alloc: Global, at_value: Pos, t: CoreType, v: Typed) -> Result<Found, Fault>
    ensures { Follows found_of result (spec.cast_to at_value (type_of t) (typed_of v)) }
{
    let e = converted(alloc, at_value, &t, v);
    let (t, e) = beside(t, e)?;
    Ok(value_found(e, t))
}
