//! What names mean in expressions, constants and calls.

ghost use Rattle.std.specs.Prelude.{◌≡◌, IfOk, Some, map};
ghost use Rattle.std.specs.Option.{option_map};
ghost use Rattle.nesc_core.specs.Typing as core_ports;
ghost use Rattle.nesc_core.specs.View.{type_of, exprs_of as core_exprs_of};
ghost use Rattle.nesc_tree.specs.View as tree;
ghost use Rattle.elab_meaning.specs.Answers.{Follows};
ghost use Rattle.elab_meaning.specs.Operators as spec;
ghost use Rattle.elab_meaning.specs.View.{entry_of, found_of, meaning_of, signature_of, typed_of};

use crate::scope::look_up;
use elab_meaning::{Entry, Found, Meaning, Signature, Typed};
use elab_values::{bad_type, converted, copied, not_constant, unknown_name, value_found};
use nesc_core::{CoreExpr, CoreType, Place};
use nesc_tree::Expr;
use nesc_types::{Constant, pos_of};
use nm_base::{ENABLE, Fault, IntType, List, NoMemory, PENDING, Pos, Refusal};
use std::alloc::Global;
use std::collections::VecDeque;

// ---- constants

/// A constant as a value.
pub fn const_of(x: Constant) -> Found
    ensures { found_of result ≡ spec.const_of x }
{
    value_found(CoreExpr::Const(x.0, x.1), CoreType::Int(x.0))
}

/// A literal that some type holds.
pub fn literal(at: Pos, x: Option<Constant>) -> Result<Found, Fault>
    ensures { Follows found_of result (spec.literal at x) }
{
    match x {
        None => bad_type(at),
        Some(x) => Ok(const_of(x)),
    }
}

fn decimal(n: u32) -> Option<Constant>
    ensures { result ≡ spec.decimal n }
{
    if n <= 32_767 {
        Some((IntType::I16, i64::from(n)))
    } else if n <= 2_147_483_647 {
        Some((IntType::I32, i64::from(n)))
    } else {
        None
    }
}

/// The number of a use of `unique` or `uniqueCount`.
pub fn counted(at: Pos, n: Option<u32>) -> Result<Constant, Fault>
    ensures { Follows (λ x. x) result (spec.counted at n) }
{
    match n {
        None => not_constant(at),
        Some(n) => fits_literal(at, decimal(n)),
    }
}

fn fits_literal(at: Pos, x: Option<Constant>) -> Result<Constant, Fault>
    ensures { Follows (λ x. x) result (spec.fits_literal at x) }
{
    match x {
        None => bad_type(at),
        Some(x) => Ok(x),
    }
}

fn meant_in_constant(whole: Pos, meaning: &Meaning) -> Result<Constant, Fault>
    ensures { Follows (λ x. x) result (spec.meant_in_constant whole (meaning_of meaning.now)) }
{
    match meaning {
        Meaning::Constant(t, n) => Ok((*t, *n)),
        Meaning::Object(_, _, _)
        | Meaning::Local(_, _, _)
        | Meaning::Function(_, _, _)
        | Meaning::Task(_)
        | Meaning::Type(_, _) => not_constant(whole),
    }
}

/// A name in a constant.
pub fn constant_named(whole: Pos, at: Pos, meaning: Option<&Meaning>) -> Result<Constant, Fault>
    ensures { Follows (λ x. x) result (spec.constant_named whole at (option_map (λ m. meaning_of m.now) meaning.entry)) }
{
    match meaning {
        None => unknown_name(at),
        Some(meaning) => meant_in_constant(whole, meaning),
    }
}

// ---- variables

fn meant(alloc: Global, at: Pos, meaning: &Meaning) -> Result<Found, Fault>
    ensures { Follows found_of result (spec.meant at (meaning_of meaning.now)) }
{
    match meaning {
        Meaning::Object(k, t, is_const) => {
            let ty = copied(alloc, t)?;
            Ok(Found::Place(Place::Object(*k), VecDeque::new(alloc), ty, *is_const))
        }
        Meaning::Local(x, t, is_const) => {
            let ty = copied(alloc, t)?;
            Ok(Found::Place(Place::Local(*x), VecDeque::new(alloc), ty, *is_const))
        }
        Meaning::Constant(t, n) => Ok(const_of((*t, *n))),
        Meaning::Function(_, _, _) | Meaning::Task(_) | Meaning::Type(_, _) => bad_type(at),
    }
}

/// A name in an expression.
pub fn named(alloc: Global, at: Pos, meaning: Option<&Meaning>) -> Result<Found, Fault>
    ensures { Follows found_of result (spec.named at (option_map (λ m. meaning_of m.now) meaning.entry)) }
{
    match meaning {
        None => unknown_name(at),
        Some(meaning) => meant(alloc, at, meaning),
    }
}

// ---- calls, tasks and ports

/// Copies of types.
pub fn all_copied(alloc: Global, types: &[CoreType]) -> Result<Vec<CoreType>, NoMemory>
    ensures { IfOk result (λ v. map type_of v.items ≡ map type_of types.now) }
{
    let mut copies = Vec::new(alloc);
    for t in types {
        copies.push(copied(alloc, t)?)?;
    }
    Ok(copies)
}

fn function_meant(alloc: Global, at: Pos, meaning: &Meaning) -> Result<Signature, Fault>
    ensures { Follows signature_of result (spec.function_meant at (meaning_of meaning.now)) }
{
    match meaning {
        Meaning::Function(body, params, result) => Ok(Signature {
            body: *body,
            params: all_copied(alloc, params.as_slice())?,
            result: copied(alloc, result)?,
        }),
        Meaning::Object(_, _, _)
        | Meaning::Local(_, _, _)
        | Meaning::Task(_)
        | Meaning::Constant(_, _)
        | Meaning::Type(_, _) => bad_type(at),
    }
}

fn function_named(alloc: Global, at: Pos, meaning: Option<&Meaning>) -> Result<Signature, Fault>
    ensures { Follows signature_of result (spec.function_named at (option_map (λ m. meaning_of m.now) meaning.entry)) }
{
    match meaning {
        None => unknown_name(at),
        Some(meaning) => function_meant(alloc, at, meaning),
    }
}

/// The function that is called.
pub fn callee(alloc: Global, names: &[Entry], f: &Expr) -> Result<Signature, Fault>
    ensures { Follows signature_of result (spec.callee (map entry_of names.now) (tree.expr_of f.now)) }
{
    match f {
        Expr::Name(name, at) => function_named(alloc, *at, look_up(names, name)),
        Expr::Number(_, _)
        | Expr::Char(_, _)
        | Expr::Null(_)
        | Expr::Unique(_, _)
        | Expr::UniqueCount(_, _)
        | Expr::Unary(_, _, _)
        | Expr::Postfix(_, _, _)
        | Expr::Binary(_, _, _, _)
        | Expr::Assign(_, _, _, _)
        | Expr::Cond(_, _, _, _)
        | Expr::Comma(_, _, _)
        | Expr::Cast(_, _, _)
        | Expr::SizeOfExpr(_, _)
        | Expr::SizeOfType(_, _)
        | Expr::Index(_, _, _)
        | Expr::Member(_, _, _)
        | Expr::Arrow(_, _, _)
        | Expr::CallFn(_, _, _)
        | Expr::CallItem { .. }
        | Expr::PortRead(_, _)
        | Expr::PortWrite(_, _, _)
        | Expr::Post(_, _) => bad_type(pos_of(f)),
    }
}

/// As many arguments as parameters.
#[tactic(auto, using(crate::proofs::Tables::counts))]
pub fn same_count(at: Pos, n: usize, arguments: &List<Expr>) -> Result<(), Fault>
    ensures { Follows (λ _. tt) result (spec.same_count at n (spec.count (tree.exprs_of arguments.now))) }
{
    if n == arguments.as_slice().len() {
        Ok(())
    } else {
        Err(Fault::Refused(Refusal::ArgumentMismatch(at)))
    }
}

/// A call.
pub fn called(at: Pos, f: Signature, arguments: List<CoreExpr>) -> Found
    ensures { found_of result ≡ spec.called at (signature_of f) (core_exprs_of arguments) }
{
    value_found(CoreExpr::Call(f.body, arguments, at), f.result)
}

fn task_meant(at: Pos, meaning: &Meaning) -> Result<Found, Fault>
    ensures { Follows found_of result (spec.task_meant at (meaning_of meaning.now)) }
{
    match meaning {
        Meaning::Task(k) => Ok(value_found(CoreExpr::Post(*k), CoreType::Int(IntType::U8))),
        Meaning::Object(_, _, _)
        | Meaning::Local(_, _, _)
        | Meaning::Function(_, _, _)
        | Meaning::Constant(_, _)
        | Meaning::Type(_, _) => bad_type(at),
    }
}

/// `post`.
pub fn posted(at: Pos, meaning: Option<&Meaning>) -> Result<Found, Fault>
    ensures { Follows found_of result (spec.posted at (option_map (λ m. meaning_of m.now) meaning.entry)) }
{
    match meaning {
        None => unknown_name(at),
        Some(meaning) => task_meant(at, meaning),
    }
}

fn is_port(n: u16) -> bool
    ensures { result ≡ core_ports.is_port n }
{
    n == ENABLE || n == PENDING || (0x0120 <= n && n <= 0x015E && n % 2 == 0)
}

/// A port's number.
pub fn port(at: Pos, n: i64) -> Result<u16, Fault>
    ensures { Follows (λ n. n) result (spec.port at n) }
{
    match u16::try_from(n) {
        Ok(n) if is_port(n) => Ok(n),
        _ => not_constant(at),
    }
}

/// `port_write`.
pub fn written(alloc: Global, n: u16, at_value: Pos, v: Typed) -> Result<Found, Fault>
    ensures { Follows found_of result (spec.written n at_value (typed_of v)) }
{
    let x = converted(alloc, at_value, &CoreType::Int(IntType::U16), v)?;
    let out = CoreExpr::Out(n, Box::new(alloc, x)?);
    Ok(value_found(out, CoreType::Void))
}

/// `port_read`.
pub fn read_from(n: u16) -> Found
    ensures { found_of result ≡ spec.read_from n }
{
    value_found(CoreExpr::In(n), CoreType::Int(IntType::U16))
}
