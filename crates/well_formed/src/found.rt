//! What is found of the types of an expression.

ghost use Rattle.std.specs.Prelude.{◌≡◌, ◌<◌, ◌≤◌, true, IfSome};
ghost use Rattle.nm_base.specs.declared.int_type.IntType.TheVariants.{U16};
ghost use Rattle.nesc_core.specs.Plain.{Expr, pointer};
ghost use Rattle.nesc_core.specs.Plain as plain;
ghost use Rattle.nesc_core.specs.Typing.{IsConverted, IsNumber, IsPointer, IsScalar, IsSecond, IsSome, IsStepped, IsTest, PointsWell};
ghost use Rattle.nesc_core.specs.View.{expr_of, type_of};
ghost use Rattle.well_formed.specs.Kinds.{type_of_kind};
ghost use Rattle.well_formed.specs.Scopes.{AreTests, Has, HasFound, IsBehind, IsLaidIn, program_in};

use crate::kind::{Kind, is_same, kind_of};
use crate::operators::{is_converted, is_promoted, is_value};
use crate::scope::Scope;
use crate::types::{is_pointed, size};
use nesc_core::{BinOp, CoreExpr, CoreType};
use nm_base::IntType;

/// The most bytes of a value.
const MOST_BYTES: u32 = 32_767;

/// The types that an expression was found to have: one; those of all pointers, as a null pointer has; or those of all pointers to values of so
/// many bytes, as what lies behind a null pointer has.
#[derive(Clone, Copy)]
pub(crate) enum Found<'a> {
    Of(Kind<'a>),
    Null,
    Behind(u32),
}

/// Whether pointers may point to values of the type.
pub(crate) fn is_target(scope: &Scope, t: &CoreType) -> bool
    requires { IsLaidIn scope.now }
    ensures { result ≡ true → PointsWell (program_in scope.now).structs (pointer (type_of t.now)) }
{
    is_pointed(&scope.program.structs, scope.layouts, t)
}

// Whether pointers may point to values of the type, which take so many bytes.
fn takes(scope: &Scope, t: &CoreType, bytes: u32) -> bool
    requires { IsLaidIn scope.now }
    ensures { result ≡ true → IsStepped (program_in scope.now).structs bytes (pointer (type_of t.now)) }
{
    if !is_target(scope, t) {
        return false;
    }
    match size(&scope.program.structs, scope.layouts, t) {
        Some(own) => bytes == own,
        None => false,
    }
}

// Whether the kind is a pointer to what takes so many bytes.
fn is_stepped(scope: &Scope, k: Kind, bytes: u32) -> bool
    requires { IsLaidIn scope.now }
    ensures { result ≡ true → IsStepped (program_in scope.now).structs bytes (type_of_kind k.entry) }
{
    match k {
        Kind::Void | Kind::Int(_) => false,
        Kind::Pointer(t) => takes(scope, t, bytes),
    }
}

/// The kind of values of a type; None where there are none.
pub(crate) fn held(t: &CoreType) -> Option<Kind>
    ensures is { IfSome result (λ k. type_of_kind k ≡ type_of t.now) }
    ensures value { IfSome result (λ k. IsScalar (type_of_kind k)) }
{
    let k = kind_of(Some(t))?;
    if is_value(k) { Some(k) } else { None }
}

// Whether an expression, of which these types were found, has a kind of pointers.
fn has_pointer(scope: &Scope, e: &CoreExpr, found: Found, wanted: Kind) -> bool
    requires laid { IsLaidIn scope.now }
    requires found { HasFound scope.now (expr_of e.now) found }
    ensures { result ≡ true → Has scope.now (expr_of e.now) (type_of_kind wanted.entry) }
{
    match wanted {
        Kind::Void | Kind::Int(_) => false,
        Kind::Pointer(t) => match found {
            Found::Of(_) => false,
            Found::Null => is_target(scope, t),
            Found::Behind(bytes) => takes(scope, t, bytes),
        },
    }
}

/// Whether an expression, of which these types were found, has a kind.
pub(crate) fn has(scope: &Scope, e: &CoreExpr, found: Option<Found>, wanted: Kind) -> bool
    requires laid { IsLaidIn scope.now }
    requires found { IfSome found (λ f. HasFound scope.now (expr_of e.now) f) }
    ensures { result ≡ true → Has scope.now (expr_of e.now) (type_of_kind wanted.entry) }
{
    match found {
        Some(Found::Of(k)) => is_same(k, wanted),
        Some(other) => has_pointer(scope, e, other, wanted),
        None => false,
    }
}

/// Whether an expression, of which these types were found, has a type.
pub(crate) fn has_type(scope: &Scope, e: &CoreExpr, found: Option<Found>, t: &CoreType) -> bool
    requires laid { IsLaidIn scope.now }
    requires found { IfSome found (λ f. HasFound scope.now (expr_of e.now) f) }
    ensures { result ≡ true → Has scope.now (expr_of e.now) (type_of t.now) }
{
    match kind_of(Some(t)) {
        Some(wanted) => has(scope, e, found, wanted),
        None => false,
    }
}

/// Whether an expression, of which these types were found, has some type.
#[tactic(auto, using(crate::proofs::Nulls::some_found))]
pub(crate) fn is_typed(scope: &Scope, e: &CoreExpr, found: Option<Found>) -> bool
    requires { IfSome found (λ f. HasFound scope.now (expr_of e.now) f) }
    ensures { result ≡ true → IsSome (Has scope.now (expr_of e.now)) }
{
    match found {
        Some(_) => true,
        None => false,
    }
}

// Whether an expression of these types is tested.
fn has_test(scope: &Scope, e: &CoreExpr, found: Found) -> bool
    requires { HasFound scope.now (expr_of e.now) found }
    ensures { result ≡ true → IsTest (Has scope.now (expr_of e.now)) }
{
    match found {
        Found::Of(k) => is_value(k),
        Found::Null => true,
        Found::Behind(_) => true,
    }
}

/// Whether an expression, of which these types were found, is tested.
pub(crate) fn is_test(scope: &Scope, e: &CoreExpr, found: Option<Found>) -> bool
    requires { IfSome found (λ f. HasFound scope.now (expr_of e.now) f) }
    ensures { result ≡ true → IsTest (Has scope.now (expr_of e.now)) }
{
    match found {
        Some(f) => has_test(scope, e, f),
        None => false,
    }
}

// Whether a logical operator takes two expressions, of which these types were found.
fn are_tests(
    scope: &Scope,
    a: &CoreExpr,
    b: &CoreExpr,
    first: Option<Found>,
    second: Option<Found>,
) -> bool
    requires first { IfSome first (λ f. HasFound scope.now (expr_of a.now) f) }
    requires second { IfSome second (λ f. HasFound scope.now (expr_of b.now) f) }
    ensures { result ≡ true → AreTests scope.now (expr_of a.now) (expr_of b.now) }
{
    if !is_test(scope, a, first) {
        return false;
    }
    is_test(scope, b, second)
}

/// The same of two operands.
pub(crate) fn are_tested(
    scope: &Scope,
    a: &Box<CoreExpr>,
    b: &Box<CoreExpr>,
    first: Option<Found>,
    second: Option<Found>,
) -> bool
    requires first { IfSome first (λ f. HasFound scope.now (expr_of a.now.value) f) }
    requires second { IfSome second (λ f. HasFound scope.now (expr_of b.now.value) f) }
    ensures { result ≡ true → AreTests scope.now (expr_of a.now.value) (expr_of b.now.value) }
{
    are_tests(scope, a, b, first, second)
}

/// Whether an expression, of which these types were found, is a number.
pub(crate) fn is_number(scope: &Scope, e: &CoreExpr, found: Option<Found>) -> bool
    requires { IfSome found (λ f. HasFound scope.now (expr_of e.now) f) }
    ensures { result ≡ true → IsNumber (Has scope.now (expr_of e.now)) }
{
    match found {
        Some(Found::Of(Kind::Int(_))) => true,
        Some(Found::Of(Kind::Void | Kind::Pointer(_)) | Found::Null | Found::Behind(_)) | None =>
            false,
    }
}

/// Whether an expression, of which these types were found, is the second operand of an operator at a type.
pub(crate) fn is_second(
    scope: &Scope,
    op: BinOp,
    t: IntType,
    e: &CoreExpr,
    found: Option<Found>,
) -> bool
    requires { IfSome found (λ f. HasFound scope.now (expr_of e.now) f) }
    ensures { result ≡ true → IsSecond op t (Has scope.now (expr_of e.now)) }
{
    match found {
        Some(Found::Of(Kind::Int(of))) => match op {
            BinOp::Shl => is_promoted(of),
            BinOp::Shr => is_promoted(of),
            BinOp::Add
            | BinOp::Sub
            | BinOp::Mul
            | BinOp::Div
            | BinOp::Rem
            | BinOp::And
            | BinOp::Or
            | BinOp::Xor
            | BinOp::Eq
            | BinOp::Ne
            | BinOp::Lt
            | BinOp::Le => of == t,
        },
        Some(Found::Of(Kind::Void | Kind::Pointer(_)) | Found::Null | Found::Behind(_)) | None =>
            false,
    }
}

// Whether addresses are numbers of the type.
fn is_address(t: IntType) -> bool
    ensures { result ≡ true → t ≡ U16 }
{
    t == IntType::U16
}

// Whether an expression of these types is converted to a number of a type.
fn converts(scope: &Scope, e: &CoreExpr, found: Found, t: IntType) -> bool
    requires { HasFound scope.now (expr_of e.now) found }
    ensures { result ≡ true → IsSome (λ from. IsConverted t from × Has scope.now (expr_of e.now) from) }
{
    match found {
        Found::Of(k) => is_converted(t, k),
        Found::Null => is_address(t),
        Found::Behind(_) => is_address(t),
    }
}

/// Whether an expression, of which these types were found, is converted to a number of a type.
pub(crate) fn is_convertible(scope: &Scope, e: &CoreExpr, found: Option<Found>, t: IntType) -> bool
    requires { IfSome found (λ f. HasFound scope.now (expr_of e.now) f) }
    ensures { result ≡ true → IsSome (λ from. IsConverted t from × Has scope.now (expr_of e.now) from) }
{
    match found {
        Some(f) => converts(scope, e, f, t),
        None => false,
    }
}

// Whether values take some bytes, and not too many.
fn is_size(bytes: u32) -> bool
    ensures some { result ≡ true → 0 < bytes }
    ensures small { result ≡ true → bytes ≤ 32767 }
{
    0 < bytes && bytes <= MOST_BYTES
}

// Whether an expression of these types has those of all pointers to values of so many bytes.
fn is_behind(scope: &Scope, e: &CoreExpr, found: Found, bytes: u32) -> bool
    requires { HasFound scope.now (expr_of e.now) found }
    ensures { result ≡ true → IsBehind scope.now (expr_of e.now) bytes }
{
    match found {
        Found::Of(_) => false,
        Found::Null => is_size(bytes),
        Found::Behind(own) => own == bytes,
    }
}

// Whether an expression, of which these types were found, has others too.
fn has_all(scope: &Scope, e: &CoreExpr, found: Found, others: Found) -> bool
    requires laid { IsLaidIn scope.now }
    requires found { HasFound scope.now (expr_of e.now) found }
    ensures { result ≡ true → HasFound scope.now (expr_of e.now) others.entry }
{
    match others {
        Found::Of(k) => has(scope, e, Some(found), k),
        Found::Null => match found {
            Found::Null => true,
            Found::Of(_) | Found::Behind(_) => false,
        },
        Found::Behind(bytes) => is_behind(scope, e, found, bytes),
    }
}

/// The types that two expressions have both, of which these were found.
pub(crate) fn common<'a>(
    scope: &Scope<'a>,
    a: &CoreExpr,
    b: &CoreExpr,
    first: Option<Found<'a>>,
    second: Option<Found<'a>>,
) -> Option<Found<'a>>
    requires laid { IsLaidIn scope.now }
    requires first { IfSome first (λ f. HasFound scope.now (expr_of a.now) f) }
    requires second { IfSome second (λ f. HasFound scope.now (expr_of b.now) f) }
    ensures first { IfSome result (λ f. HasFound scope.now (expr_of a.now) f) }
    ensures second { IfSome result (λ f. HasFound scope.now (expr_of b.now) f) }
{
    let f = first?;
    let g = second?;
    if has_all(scope, b, g, f) {
        return Some(f);
    }
    if has_all(scope, a, f, g) {
        return Some(g);
    }
    None
}

// The types of what an expression of these types is moved to, over values of so many bytes.
fn moved_to<'a>(scope: &Scope<'a>, a: &CoreExpr, found: Found<'a>, bytes: u32) -> Option<Found<'a>>
    requires laid { IsLaidIn scope.now }
    requires found { HasFound scope.now (expr_of a.now) found }
    ensures { IfSome result (λ f. (b : Expr) → IsNumber (Has scope.now b) → HasFound scope.now (plain.offset (expr_of a.now) b bytes) f) }
{
    match found {
        Found::Of(k) => {
            if is_stepped(scope, k, bytes) {
                Some(Found::Of(k))
            } else {
                None
            }
        }
        Found::Null | Found::Behind(_) => {
            if is_behind(scope, a, found, bytes) {
                Some(Found::Behind(bytes))
            } else {
                None
            }
        }
    }
}

/// The types of a pointer, of which these were found, that is moved over values of so many bytes.
pub(crate) fn moved<'a>(
    scope: &Scope<'a>,
    a: &CoreExpr,
    found: Option<Found<'a>>,
    bytes: u32,
) -> Option<Found<'a>>
    requires laid { IsLaidIn scope.now }
    requires found { IfSome found (λ f. HasFound scope.now (expr_of a.now) f) }
    ensures { IfSome result (λ f. (b : Expr) → IsNumber (Has scope.now b) → HasFound scope.now (plain.offset (expr_of a.now) b bytes) f) }
{
    match found {
        Some(f) => moved_to(scope, a, f, bytes),
        None => None,
    }
}

// Whether two expressions of these types are both pointers to values of so many bytes, whatever these are.
fn are_behind(scope: &Scope, a: &CoreExpr, b: &CoreExpr, found: Found, bytes: u32) -> bool
    requires first { HasFound scope.now (expr_of a.now) found }
    requires second { HasFound scope.now (expr_of b.now) found }
    ensures { result ≡ true → IsSome (λ of. IsStepped (program_in scope.now).structs bytes of × Has scope.now (expr_of a.now) of × Has scope.now (expr_of b.now) of) }
{
    if !is_behind(scope, a, found, bytes) {
        return false;
    }
    is_behind(scope, b, found, bytes)
}

// Whether two expressions of these types are both pointers to values of so many bytes.
fn are_apart(scope: &Scope, a: &CoreExpr, b: &CoreExpr, found: Found, bytes: u32) -> bool
    requires laid { IsLaidIn scope.now }
    requires first { HasFound scope.now (expr_of a.now) found }
    requires second { HasFound scope.now (expr_of b.now) found }
    ensures { result ≡ true → IsSome (λ of. IsStepped (program_in scope.now).structs bytes of × Has scope.now (expr_of a.now) of × Has scope.now (expr_of b.now) of) }
{
    match found {
        Found::Of(k) => is_stepped(scope, k, bytes),
        Found::Null | Found::Behind(_) => are_behind(scope, a, b, found, bytes),
    }
}

/// Whether two expressions, of which these types were found, are pointers to values of so many bytes.
pub(crate) fn have_distance<'a>(
    scope: &Scope<'a>,
    a: &CoreExpr,
    b: &CoreExpr,
    first: Option<Found<'a>>,
    second: Option<Found<'a>>,
    bytes: u32,
) -> bool
    requires laid { IsLaidIn scope.now }
    requires first { IfSome first (λ f. HasFound scope.now (expr_of a.now) f) }
    requires second { IfSome second (λ f. HasFound scope.now (expr_of b.now) f) }
    ensures { result ≡ true → IsSome (λ of. IsStepped (program_in scope.now).structs bytes of × Has scope.now (expr_of a.now) of × Has scope.now (expr_of b.now) of) }
{
    match common(scope, a, b, first, second) {
        Some(f) => are_apart(scope, a, b, f, bytes),
        None => false,
    }
}
