//! Operators and casts on constants.

ghost use Rattle.std.specs.Prelude.{◌≡◌, ◌&&◌};
ghost use Rattle.nesc_tree.specs.View.{exprs_of, base_of, spec_of};
ghost use Rattle.nesc_types.specs.Constant as spec;

use crate::conversions::{common, promoted};
use crate::values::Constant;
use core_numbers::{binary, is_zero, truth, unary};
use nesc_core::{BinOp, UnOp};
use nesc_tree::{Base, Expr, InOp, TypeSpec};
use nm_base::{Fault, IntType, Pos, Refusal, wrap};

pub(crate) fn bad_type<T>(at: Pos) -> Result<T, Fault>
    ensures { result ≡ Err (Fault.Refused (Refusal.BadType at)) }
{
    Err(Fault::Refused(Refusal::BadType(at)))
}

pub(crate) fn not_constant<T>(whole: Pos) -> Result<T, Fault>
    ensures { result ≡ Err (Fault.Refused (Refusal.NotConstant whole)) }
{
    Err(Fault::Refused(Refusal::NotConstant(whole)))
}

pub(crate) fn unknown_name<T>(at: Pos) -> Result<T, Fault>
    ensures { result ≡ Err (Fault.Refused (Refusal.UnknownName at)) }
{
    Err(Fault::Refused(Refusal::UnknownName(at)))
}

pub(crate) fn both(a: bool, b: bool) -> bool
    ensures { result ≡ a && b }
{
    a && b
}

/// Whether the number counts as true.
pub fn is_true(x: Constant) -> bool
    ensures { result ≡ spec.is_true x }
{
    !is_zero(x.1)
}

// The number, but for a zero divisor.
fn unless_undefined(
    whole: Pos,
    evaluated: bool,
    t: IntType,
    z: Option<i64>,
) -> Result<Constant, Fault>
    ensures { result ≡ spec.unless_undefined whole evaluated t z }
{
    match z {
        Some(z) => Ok((t, z)),
        None => undefined(whole, evaluated, t),
    }
}

// What is not evaluated has a type alone.
fn undefined(whole: Pos, evaluated: bool, t: IntType) -> Result<Constant, Fault>
    ensures { result ≡ spec.undefined whole evaluated t }
{
    if evaluated {
        not_constant(whole)
    } else {
        Ok((t, 0))
    }
}

// Two numbers converted to a type.
fn at_type(o: BinOp, t: IntType, x: i64, y: i64) -> Option<i64>
    ensures { result ≡ spec.at_type o t x y }
{
    binary(o, t, wrap(t, x), wrap(t, y))
}

fn arithmetic(
    whole: Pos,
    evaluated: bool,
    o: BinOp,
    x: Constant,
    y: Constant,
) -> Result<Constant, Fault>
    ensures { result ≡ spec.arithmetic whole evaluated o x y }
{
    let t = common(x.0, y.0);
    unless_undefined(whole, evaluated, t, at_type(o, t, x.1, y.1))
}

fn shifted(
    whole: Pos,
    evaluated: bool,
    o: BinOp,
    x: Constant,
    y: Constant,
) -> Result<Constant, Fault>
    ensures { result ≡ spec.shifted whole evaluated o x y }
{
    let t = promoted(x.0);
    unless_undefined(whole, evaluated, t, binary(o, t, x.1, y.1))
}

fn compared(
    whole: Pos,
    evaluated: bool,
    o: BinOp,
    x: Constant,
    y: Constant,
) -> Result<Constant, Fault>
    ensures { result ≡ spec.compared whole evaluated o x y }
{
    let t = common(x.0, y.0);
    unless_undefined(whole, evaluated, IntType::I16, at_type(o, t, x.1, y.1))
}

fn conjunction(x: Constant, y: Constant) -> Constant
    ensures { result ≡ spec.conjunction x y }
{
    (IntType::I16, truth(both(is_true(x), is_true(y))))
}

fn disjunction(x: Constant, y: Constant) -> Constant
    ensures { result ≡ spec.disjunction x y }
{
    (IntType::I16, truth(!both(is_zero(x.1), is_zero(y.1))))
}

/// What an operator gives on two constants.
pub fn computed(
    whole: Pos,
    evaluated: bool,
    o: InOp,
    x: Constant,
    y: Constant,
) -> Result<Constant, Fault>
    ensures { result ≡ spec.computed whole evaluated o x y }
{
    match o {
        InOp::Mul => arithmetic(whole, evaluated, BinOp::Mul, x, y),
        InOp::Div => arithmetic(whole, evaluated, BinOp::Div, x, y),
        InOp::Rem => arithmetic(whole, evaluated, BinOp::Rem, x, y),
        InOp::Add => arithmetic(whole, evaluated, BinOp::Add, x, y),
        InOp::Sub => arithmetic(whole, evaluated, BinOp::Sub, x, y),
        InOp::Shl => shifted(whole, evaluated, BinOp::Shl, x, y),
        InOp::Shr => shifted(whole, evaluated, BinOp::Shr, x, y),
        InOp::Lt => compared(whole, evaluated, BinOp::Lt, x, y),
        InOp::Gt => compared(whole, evaluated, BinOp::Lt, y, x),
        InOp::Le => compared(whole, evaluated, BinOp::Le, x, y),
        InOp::Ge => compared(whole, evaluated, BinOp::Le, y, x),
        InOp::Eq => compared(whole, evaluated, BinOp::Eq, x, y),
        InOp::Ne => compared(whole, evaluated, BinOp::Ne, x, y),
        InOp::And => arithmetic(whole, evaluated, BinOp::And, x, y),
        InOp::Xor => arithmetic(whole, evaluated, BinOp::Xor, x, y),
        InOp::Or => arithmetic(whole, evaluated, BinOp::Or, x, y),
        InOp::AndAnd => Ok(conjunction(x, y)),
        InOp::OrOr => Ok(disjunction(x, y)),
    }
}

/// Whether the right operand is evaluated, behind this left one.
pub fn goes_on(o: InOp, x: Constant) -> bool
    ensures { result ≡ spec.goes_on o x }
{
    match o {
        InOp::AndAnd => is_true(x),
        InOp::OrOr => is_zero(x.1),
        InOp::Mul
        | InOp::Div
        | InOp::Rem
        | InOp::Add
        | InOp::Sub
        | InOp::Shl
        | InOp::Shr
        | InOp::Lt
        | InOp::Gt
        | InOp::Le
        | InOp::Ge
        | InOp::Eq
        | InOp::Ne
        | InOp::And
        | InOp::Xor
        | InOp::Or => true,
    }
}

/// An operator on a promoted number.
pub fn at_promoted(o: UnOp, x: Constant) -> Constant
    ensures { result ≡ spec.at_promoted o x }
{
    let t = promoted(x.0);
    (t, unary(o, t, x.1))
}

/// A promoted number.
pub fn kept(x: Constant) -> Constant
    ensures { result ≡ spec.kept x }
{
    (promoted(x.0), x.1)
}

/// Whether the number counts as false.
pub fn negated(x: Constant) -> Constant
    ensures { result ≡ spec.negated x }
{
    (IntType::I16, truth(is_zero(x.1)))
}

/// The second or the third operand, at the type that both have.
pub fn chosen(x: Constant, y: Constant, z: Constant) -> Constant
    ensures { result ≡ spec.chosen x y z }
{
    let t = common(y.0, z.0);
    (t, wrap(t, one_of(is_true(x), y.1, z.1)))
}

fn one_of(first: bool, y: i64, z: i64) -> i64
    ensures { result ≡ spec.one_of first y z }
{
    if first { y } else { z }
}

fn base_type(at: Pos, base: &Base) -> Result<Option<IntType>, Fault>
    ensures { result ≡ spec.base_type at (base_of base.now) }
{
    match base {
        Base::Void => Ok(None),
        Base::Int(t) => Ok(Some(*t)),
        Base::Named(_) => unknown_name(at),
        Base::Struct(..) => Ok(None),
        Base::Enum(..) => Ok(Some(IntType::I16)),
    }
}

fn is_plain(stars: u8, dims: &[Expr]) -> bool
    ensures { result ≡ spec.is_plain stars (exprs_of dims.now) }
{
    match dims {
        [] => stars == 0,
        [_, ..] => false,
    }
}

fn if_plain(plain: bool, t: Option<IntType>) -> Option<IntType>
    ensures { result ≡ spec.if_plain plain t }
{
    if plain { t } else { None }
}

fn plain_type(at: Pos, base: &Base, stars: u8, dims: &[Expr]) -> Result<Option<IntType>, Fault>
    ensures { result ≡ spec.plain_type at (base_of base.now) stars (exprs_of dims.now) }
{
    let t = base_type(at, base)?;
    Ok(if_plain(is_plain(stars, dims), t))
}

/// The integer type of a cast; None where it is a type that no constant is converted to.
pub(crate) fn cast_type(at: Pos, t: &TypeSpec) -> Result<Option<IntType>, Fault>
    ensures { result ≡ spec.cast_type at (spec_of t.now) }
{
    plain_type(at, &t.base, t.stars, t.dims.as_slice())
}

/// A number as one of the type of a cast.
pub fn converted(at: Pos, to: Option<IntType>, x: Constant) -> Result<Constant, Fault>
    ensures { result ≡ spec.converted at to x }
{
    match to {
        None => bad_type(at),
        Some(t) => Ok((t, wrap(t, x.1))),
    }
}
