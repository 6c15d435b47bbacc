//! Constant expressions.

ghost use Rattle.std.specs.Prelude.{◌≡◌};
ghost use Rattle.nesc_tree.specs.View.{expr_of};
ghost use Rattle.nesc_types.specs.Constant as spec;
ghost use Rattle.nesc_types.specs.Rule.{or_refuse};
ghost use Rattle.nm_base.specs.declared.refusal.Refusal.TheVariants.{BadType, NotConstant, UnknownName};

use crate::literals::{character, number};
use crate::operators::{
    at_promoted, bad_type, both, cast_type, chosen, computed, converted, goes_on, is_true, kept,
    negated, not_constant, unknown_name,
};
use crate::values::{Constant, Constants};
use core_numbers::is_zero;
use nesc_core::UnOp;
use nesc_tree::{Expr, PreOp};
use nm_base::{Fault, Pos};
use std::alloc::Global;

/// The place of an expression's first token.
pub fn pos_of(e: &Expr) -> Pos
    ensures { result ≡ spec.pos_of (expr_of e.now) }
{
    match e {
        Expr::Name(_, at)
        | Expr::Number(_, at)
        | Expr::Char(_, at)
        | Expr::Null(at)
        | Expr::Unique(_, at)
        | Expr::UniqueCount(_, at)
        | Expr::Unary(_, _, at)
        | Expr::Postfix(_, _, at)
        | Expr::Binary(_, _, _, at)
        | Expr::Assign(_, _, _, at)
        | Expr::Cond(_, _, _, at)
        | Expr::Comma(_, _, at)
        | Expr::Cast(_, _, at)
        | Expr::SizeOfExpr(_, at)
        | Expr::SizeOfType(_, at)
        | Expr::Index(_, _, at)
        | Expr::Member(_, _, at)
        | Expr::Arrow(_, _, at)
        | Expr::CallFn(_, _, at)
        | Expr::CallItem { pos: at, .. }
        | Expr::PortRead(_, at)
        | Expr::PortWrite(_, _, at)
        | Expr::Post(_, at) => *at,
    }
}

fn or_unknown(at: Pos, found: Option<Constant>) -> Result<Constant, Fault>
    ensures { result ≡ or_refuse (UnknownName at) found }
{
    match found {
        Some(x) => Ok(x),
        None => unknown_name(at),
    }
}

fn or_bad_type(at: Pos, found: Option<Constant>) -> Result<Constant, Fault>
    ensures { result ≡ or_refuse (BadType at) found }
{
    match found {
        Some(x) => Ok(x),
        None => bad_type(at),
    }
}

fn or_not_constant(whole: Pos, found: Option<Constant>) -> Result<Constant, Fault>
    ensures { result ≡ or_refuse (NotConstant whole) found }
{
    match found {
        Some(x) => Ok(x),
        None => not_constant(whole),
    }
}

/// The type and the number of a constant expression, or the first refusal in the order of evaluation: BadType at a literal that
/// no type holds and at what a cast can't convert, UnknownName at a name and at a cast to a type name, and NotConstant at the
/// whole (C99, 6.6). Numbers stand in the place of `unique`, `uniqueCount` and `sizeof`, and types in that of type names.
pub fn constant(_alloc: Global, e: &Expr, values: &Constants) -> Result<Constant, Fault>
    ensures { result ≡ spec.constant values.now (expr_of e.now) }
{
    value(e, values, pos_of(e), true)
}

// A part of the constant `whole`, which may stand where it is not evaluated.
#[cycle(value)]
fn value(e: &Expr, values: &Constants, whole: Pos, evaluated: bool) -> Result<Constant, Fault>
    ensures { result ≡ spec.value values.now whole (expr_of e.now) evaluated }
{
    match e {
        Expr::Name(name, at) => or_unknown(*at, values.get(name)),
        Expr::Number(text, at) => or_bad_type(*at, number(text.as_bytes())),
        Expr::Char(text, _) => or_not_constant(whole, character(text.as_bytes())),
        Expr::Unary(o, a, _) => prefixed(a.get(), *o, values, whole, evaluated),
        Expr::Binary(o, a, b, _) => {
            let x = value(a.get(), values, whole, evaluated)?;
            let y = value(b.get(), values, whole, both(evaluated, goes_on(*o, x)))?;
            computed(whole, evaluated, *o, x, y)
        }
        Expr::Cond(a, b, c, _) => {
            let x = value(a.get(), values, whole, evaluated)?;
            let y = value(b.get(), values, whole, both(evaluated, is_true(x)))?;
            let z = value(c.get(), values, whole, both(evaluated, is_zero(x.1)))?;
            Ok(chosen(x, y, z))
        }
        Expr::Cast(t, a, at) => {
            let to = cast_type(*at, t)?;
            let x = value(a.get(), values, whole, evaluated)?;
            converted(pos_of(a.get()), to, x)
        }
        Expr::Comma(a, b, _) => {
            if evaluated {
                return not_constant(whole);
            }
            value(a.get(), values, whole, false)?;
            value(b.get(), values, whole, false)
        }
        _ => not_constant(whole),
    }
}

// An operator before this operand.
#[cycle(value)]
fn prefixed(
    a: &Expr,
    o: PreOp,
    values: &Constants,
    whole: Pos,
    evaluated: bool,
) -> Result<Constant, Fault>
    ensures { result ≡ spec.prefixed whole o (spec.value values.now whole (expr_of a.now) evaluated) }
{
    match o {
        PreOp::Plus => Ok(kept(value(a, values, whole, evaluated)?)),
        PreOp::Neg => Ok(at_promoted(UnOp::Neg, value(a, values, whole, evaluated)?)),
        PreOp::Not => Ok(at_promoted(UnOp::Not, value(a, values, whole, evaluated)?)),
        PreOp::IsZero => Ok(negated(value(a, values, whole, evaluated)?)),
        PreOp::Inc | PreOp::Dec | PreOp::Addr | PreOp::Deref => not_constant(whole),
    }
}
