//! The types of expressions and places.

ghost use Rattle.std.specs.Prelude.{◌≡◌, ◌≤◌, true, IfSome, length, map, take};
ghost use Rattle.nm_base.specs.declared.pos.Pos.{Pos};
ghost use Rattle.nesc_core.specs.Plain as plain;
ghost use Rattle.nesc_core.specs.View.{body_of, expr_of, exprs_of, place_of, type_of};
ghost use Rattle.well_formed.specs.Kinds.{type_of_kind};
ghost use Rattle.well_formed.specs.Scopes.{AllHave, Has, HasFound, IsLaidIn, IsPlace, type_at};

use crate::found::{
    Found, are_tested, common, has, has_type, have_distance, held, is_convertible, is_number,
    is_second, is_target, is_test, is_typed, moved,
};
use crate::kind::{Kind, kind_of};
use crate::operators::{
    binary_type, is_of, is_operand, is_port, is_promoted, is_updated, unary_type,
};
use crate::places::{element, field, local, object};
use crate::scope::Scope;
use nesc_core::{Body, CoreExpr, CoreType, Place};
use nm_base::{IntType, List};

/// The types of a body's parameters.
#[tactic(auto, using(crate::proofs::Takes::types_taken))]
pub(crate) fn parameters(body: &Body) -> Option<&[CoreType]>
    ensures types { IfSome result (λ ts. map type_of ts.now ≡ take (body_of body.now).params (body_of body.now).locals) }
    ensures inside { IfSome result (λ _. (body_of body.now).params ≤ length (body_of body.now).locals) }
{
    let locals = body.locals.as_slice();
    let count = body.params as usize;
    if count <= locals.len() {
        Some(&locals[..count])
    } else {
        None
    }
}

/// The types that an expression has; None where none was found.
#[cycle(typing)]
#[tactic(auto, using(crate::proofs::Nulls::parts))]
pub(crate) fn found<'a>(scope: &Scope<'a>, e: &'a CoreExpr) -> Option<Found<'a>>
    requires { IsLaidIn scope.now }
    ensures { IfSome result (λ f. HasFound scope.now (expr_of e.now) f) }
{
    match e {
        CoreExpr::Const(t, x) if is_of(*t, *x) => Some(Found::Of(Kind::Int(*t))),
        CoreExpr::Const(_, _) => None,
        CoreExpr::Null => Some(Found::Null),
        CoreExpr::Read(at, _) => {
            let k = held(place(scope, at)?)?;
            Some(Found::Of(k))
        }
        CoreExpr::Addr(at) => {
            let t = place(scope, at)?;
            if is_target(scope, t) {
                Some(Found::Of(Kind::Pointer(t)))
            } else {
                None
            }
        }
        CoreExpr::Un(op, t, a) => {
            if is_operand(*op, *t) && has(scope, a, found(scope, a), Kind::Int(*t)) {
                Some(Found::Of(Kind::Int(unary_type(*op, *t))))
            } else {
                None
            }
        }
        CoreExpr::Bin(op, t, a, b) => {
            if is_promoted(*t)
                && has(scope, a, found(scope, a), Kind::Int(*t))
                && is_second(scope, *op, *t, b, found(scope, b))
            {
                Some(Found::Of(Kind::Int(binary_type(*op, *t))))
            } else {
                None
            }
        }
        CoreExpr::Convert(t, a) => {
            if is_convertible(scope, a, found(scope, a), *t) {
                Some(Found::Of(Kind::Int(*t)))
            } else {
                None
            }
        }
        CoreExpr::Offset(a, b, bytes) => {
            let f = moved(scope, a, found(scope, a), *bytes)?;
            if is_number(scope, b, found(scope, b)) {
                Some(f)
            } else {
                None
            }
        }
        CoreExpr::Distance(a, b, bytes) => {
            if have_distance(scope, a, b, found(scope, a), found(scope, b), *bytes) {
                Some(Found::Of(Kind::Int(IntType::I16)))
            } else {
                None
            }
        }
        CoreExpr::And(a, b) => {
            if are_tested(scope, a, b, found(scope, a), found(scope, b)) {
                Some(Found::Of(Kind::Int(IntType::I16)))
            } else {
                None
            }
        }
        CoreExpr::Or(a, b) => {
            if are_tested(scope, a, b, found(scope, a), found(scope, b)) {
                Some(Found::Of(Kind::Int(IntType::I16)))
            } else {
                None
            }
        }
        CoreExpr::Cond(test, a, b) => {
            let f = common(scope, a, b, found(scope, a), found(scope, b))?;
            if is_test(scope, test, found(scope, test)) {
                Some(f)
            } else {
                None
            }
        }
        CoreExpr::Assign(at, a, _) => {
            let k = held(place(scope, at)?)?;
            if has(scope, a, found(scope, a), k) {
                Some(Found::Of(k))
            } else {
                None
            }
        }
        CoreExpr::Update(at, op, t, a, _, _) => {
            let k = held(place(scope, at)?)?;
            if is_updated(*op, *t, k) && is_second(scope, *op, *t, a, found(scope, a)) {
                Some(Found::Of(k))
            } else {
                None
            }
        }
        CoreExpr::Call(f, args, _) => {
            let k = call(scope, *f, args)?;
            Some(Found::Of(k))
        }
        CoreExpr::Post(k) if (*k as usize) < scope.program.tasks.as_slice().len() => Some(Found::Of(
            Kind::Int(IntType::U8),
        )),
        CoreExpr::Post(_) => None,
        CoreExpr::In(port) if is_port(*port) => Some(Found::Of(Kind::Int(IntType::U16))),
        CoreExpr::In(_) => None,
        CoreExpr::Out(port, a) => {
            if is_port(*port) && has(scope, a, found(scope, a), Kind::Int(IntType::U16)) {
                Some(Found::Of(Kind::Void))
            } else {
                None
            }
        }
        CoreExpr::Comma(a, b) => {
            if !is_typed(scope, a, found(scope, a)) {
                return None;
            }
            let f = found(scope, b)?;
            Some(f)
        }
    }
}

#[cycle(typing)]
fn call<'a>(scope: &Scope<'a>, f: u32, args: &'a List<CoreExpr>) -> Option<Kind<'a>>
    requires { IsLaidIn scope.now }
    ensures { IfSome result (λ k. (at : Pos) → Has scope.now (plain.call f (exprs_of args.now) at) (type_of_kind k)) }
{
    let body = scope.program.bodies.as_slice().get(f as usize)?;
    let k = kind_of(Some(&body.result))?;
    let types = parameters(body)?;
    if all_have(scope, args, types) {
        Some(k)
    } else {
        None
    }
}

// Whether arguments have these types, one each.
#[cycle(typing)]
fn all_have<'a>(scope: &Scope<'a>, args: &'a List<CoreExpr>, types: &'a [CoreType]) -> bool
    requires { IsLaidIn scope.now }
    ensures { result ≡ true → AllHave scope.now (exprs_of args.now) (map type_of types.now) }
{
    let mut left = types;
    for arg in args.as_slice() {
        let Some((t, rest)) = left.split_first() else {
            return false;
        };
        if !has_type(scope, arg, found(scope, arg), t) {
            return false;
        }
        left = rest;
    }
    left.is_empty()
}

// The type of what is at a place, where it is there.
#[cycle(typing)]
fn place<'a>(scope: &Scope<'a>, at: &'a Place) -> Option<&'a CoreType>
    requires { IsLaidIn scope.now }
    ensures there { IfSome result (λ _. IsPlace scope.now (place_of at.now)) }
    ensures is { IfSome result (λ t. type_of t.now ≡ type_at scope.now (place_of at.now)) }
{
    match at {
        Place::Object(k) => object(scope, *k),
        Place::Local(x) => local(scope, *x),
        Place::Deref(e, t) => {
            if is_target(scope, t) && has(scope, e, found(scope, e), Kind::Pointer(t)) {
                Some(t)
            } else {
                None
            }
        }
        Place::Index(base, e) => {
            let t = element(place(scope, base)?)?;
            if is_number(scope, e, found(scope, e)) {
                Some(t)
            } else {
                None
            }
        }
        Place::Field(base, k) => field(&scope.program.structs, place(scope, base)?, *k),
    }
}
