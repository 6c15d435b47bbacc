//! Expressions and places, each with its parts.

ghost use Rattle.std.specs.Prelude.{◌≡◌, ◌++◌, ◌+◌, ◌*◌, ◌<◌, ◌^◌, IfOk, OnOk, max, option_copied};
ghost use Rattle.expr_emitter.specs.Scoped.{IsScope, args_in, expr_in, held_in, locals_in, nowhere, passed_in, place_in, program_in};
ghost use Rattle.expr_emitter.specs.Sizes.{AllHaveSizes, HasSizes, PlaceHasSizes};
ghost use Rattle.lower_expr.specs.Code.{all_labels, labels, place_labels};
ghost use Rattle.nesc_core.specs.Plain as plain;
ghost use Rattle.nesc_core.specs.PlaceTypes as places;
ghost use Rattle.nesc_core.specs.PlaceTypes.{type_in};
ghost use Rattle.nesc_core.specs.View.{expr_of, exprs_of, place_of};
ghost use Rattle.nesc_core.specs.Weights.{expr_levels, exprs_levels, place_levels};

use crate::accesses::{put_address, put_fetch, put_in_place, put_local};
use crate::conversions::{
    put_const, put_convert, put_falsity, put_move, put_truth, put_unary, put_zero,
};
use crate::elements::{put_distance, put_element, put_offset};
use crate::kinds::kind_of;
use crate::numbers::{binary_type, is_wide, unary_type};
use crate::operators::put_binary;
use crate::pieces::{Change, put_call, put_check, put_post, put_update};
use crate::put::{push_values, put};
use crate::scope::Scope;
use crate::types::{
    check_of, count_of, field_offset, number_of, object_address, object_type, result_type, size_of,
};
use mid_code::{Mid, Op, Test};
use nesc_core::{BinOp, CoreExpr, CoreType, Place, UnOp, element_of, field_type};
use nm_base::{IntType, List, NoMemory};
use std::alloc::Global;

/// The code of an expression, whose value comes to `r`, behind `code`; its labels are those from `next` on, which is then the
/// label behind them. The answer is the type as which the value is held. After NoMemory `code` has a beginning of it.
#[cycle(emit)]
pub fn emit_expr<'a>(
    alloc: Global,
    scope: &Scope<'a>,
    e: &'a CoreExpr,
    r: u32,
    next: &mut u32,
    code: &mut Vec<Mid>,
) -> Result<IntType, NoMemory>
    requires scope { IsScope scope.now }
    requires sizes { HasSizes (program_in scope.now) (locals_in scope.now) (expr_of e.now) }
    requires labels { next.old + labels (expr_of e.now) < 2 ^ 32 }
    requires values { r + (2 * expr_levels (expr_of e.now) + 6) < 2 ^ 32 }
    ensures code { OnOk result (code.new.items ≡ code.old.items ++ expr_in scope.now (expr_of e.now) r next.old) }
    ensures next { OnOk result (next.new ≡ next.old + labels (expr_of e.now)) }
    ensures held { IfOk result (λ of. of ≡ held_in scope.now (expr_of e.now)) }
{
    match e {
        CoreExpr::Const(t, x) => {
            put_const(code, *t, *x, r)?;
            Ok(*t)
        }
        CoreExpr::Null => {
            put(code, Mid::Set(r, 0))?;
            Ok(IntType::U16)
        }
        CoreExpr::Read(place, _) => emit_read(alloc, scope, place, r, next, code),
        CoreExpr::Addr(place) => emit_address(alloc, scope, place, r, next, code),
        CoreExpr::Un(op, t, a) => emit_unary(alloc, scope, *op, *t, a, r, next, code),
        CoreExpr::Bin(op, t, a, b) => emit_binary(alloc, scope, *op, *t, a, b, r, next, code),
        CoreExpr::Convert(t, a) => emit_convert(alloc, scope, *t, a, r, next, code),
        CoreExpr::Offset(a, b, size) => emit_offset(alloc, scope, a, b, *size, r, next, code),
        CoreExpr::Distance(a, b, size) => emit_distance(alloc, scope, a, b, *size, r, next, code),
        CoreExpr::And(a, b) => emit_both(alloc, scope, a, b, r, next, code),
        CoreExpr::Or(a, b) => emit_either(alloc, scope, a, b, r, next, code),
        CoreExpr::Cond(test, a, b) => emit_choice(alloc, scope, test, a, b, r, next, code),
        CoreExpr::Assign(place, a, _) => emit_assign(alloc, scope, place, a, r, next, code),
        CoreExpr::Update(place, op, t, a, gives_old, _) => {
            let change = Change {
                op: *op,
                at: *t,
                gives_old: *gives_old,
            };
            emit_update(alloc, scope, place, change, a, r, next, code)
        }
        CoreExpr::Call(f, args, _) => emit_call(alloc, scope, *f, args, r, next, code),
        CoreExpr::Post(k) => {
            put_post(code, *k, r)?;
            Ok(IntType::U8)
        }
        CoreExpr::In(port) => {
            put(code, Mid::In(r, *port))?;
            Ok(IntType::U16)
        }
        CoreExpr::Out(port, a) => emit_out(alloc, scope, *port, a, r, next, code),
        CoreExpr::Comma(a, b) => emit_comma(alloc, scope, a, b, r, next, code),
    }
}

// What is at a place.
#[cycle(emit)]
fn emit_read<'a>(
    alloc: Global,
    scope: &Scope<'a>,
    place: &'a Place,
    r: u32,
    next: &mut u32,
    code: &mut Vec<Mid>,
) -> Result<IntType, NoMemory>
    requires scope { IsScope scope.now }
    requires sizes { PlaceHasSizes (program_in scope.now) (locals_in scope.now) (place_of place.now) }
    requires labels { next.old + labels (plain.read (place_of place.now) nowhere) < 2 ^ 32 }
    requires values { r + (2 * expr_levels (plain.read (place_of place.now) nowhere) + 6) < 2 ^ 32 }
    ensures code { OnOk result (code.new.items ≡ code.old.items ++ expr_in scope.now (plain.read (place_of place.now) nowhere) r next.old) }
    ensures next { OnOk result (next.new ≡ next.old + labels (plain.read (place_of place.now) nowhere)) }
    ensures held { IfOk result (λ of. of ≡ held_in scope.now (plain.read (place_of place.now) nowhere)) }
{
    let t = emit_place(alloc, scope, place, r, next, code)?;
    let of = number_of(t);
    put_fetch(code, kind_of(scope, place), of, r, r)?;
    Ok(of)
}

// An operator on one number.
#[cycle(emit)]
fn emit_unary<'a>(
    alloc: Global,
    scope: &Scope<'a>,
    op: UnOp,
    t: IntType,
    a: &'a CoreExpr,
    r: u32,
    next: &mut u32,
    code: &mut Vec<Mid>,
) -> Result<IntType, NoMemory>
    requires scope { IsScope scope.now }
    requires sizes { HasSizes (program_in scope.now) (locals_in scope.now) (expr_of a.now) }
    requires labels { next.old + labels (plain.un op t (expr_of a.now)) < 2 ^ 32 }
    requires values { r + (2 * expr_levels (plain.un op t (expr_of a.now)) + 6) < 2 ^ 32 }
    ensures code { OnOk result (code.new.items ≡ code.old.items ++ expr_in scope.now (plain.un op t (expr_of a.now)) r next.old) }
    ensures next { OnOk result (next.new ≡ next.old + labels (plain.un op t (expr_of a.now))) }
    ensures held { IfOk result (λ of. of ≡ held_in scope.now (plain.un op t (expr_of a.now))) }
{
    let l = *next;
    *next += 2;
    emit_expr(alloc, scope, a, r, next, code)?;
    put_unary(code, op, is_wide(t), r, l)?;
    Ok(unary_type(op, t))
}

// An operator on two numbers.
#[cycle(emit)]
fn emit_binary<'a>(
    alloc: Global,
    scope: &Scope<'a>,
    op: BinOp,
    t: IntType,
    a: &'a CoreExpr,
    b: &'a CoreExpr,
    r: u32,
    next: &mut u32,
    code: &mut Vec<Mid>,
) -> Result<IntType, NoMemory>
    requires scope { IsScope scope.now }
    requires sizes { HasSizes (program_in scope.now) (locals_in scope.now) (expr_of a.now) × HasSizes (program_in scope.now) (locals_in scope.now) (expr_of b.now) }
    requires labels { next.old + labels (plain.bin op t (expr_of a.now) (expr_of b.now)) < 2 ^ 32 }
    requires values { r + (2 * expr_levels (plain.bin op t (expr_of a.now) (expr_of b.now)) + 6) < 2 ^ 32 }
    ensures code { OnOk result (code.new.items ≡ code.old.items ++ expr_in scope.now (plain.bin op t (expr_of a.now) (expr_of b.now)) r next.old) }
    ensures next { OnOk result (next.new ≡ next.old + labels (plain.bin op t (expr_of a.now) (expr_of b.now))) }
    ensures held { IfOk result (λ of. of ≡ held_in scope.now (plain.bin op t (expr_of a.now) (expr_of b.now))) }
{
    let l = *next;
    *next += 3;
    emit_expr(alloc, scope, a, r, next, code)?;
    let second = emit_expr(alloc, scope, b, r + 2, next, code)?;
    put_binary(alloc, code, op, t, second, r, l)?;
    Ok(binary_type(op, t))
}

// A number as one of another type.
#[cycle(emit)]
fn emit_convert<'a>(
    alloc: Global,
    scope: &Scope<'a>,
    t: IntType,
    a: &'a CoreExpr,
    r: u32,
    next: &mut u32,
    code: &mut Vec<Mid>,
) -> Result<IntType, NoMemory>
    requires scope { IsScope scope.now }
    requires sizes { HasSizes (program_in scope.now) (locals_in scope.now) (expr_of a.now) }
    requires labels { next.old + labels (plain.convert t (expr_of a.now)) < 2 ^ 32 }
    requires values { r + (2 * expr_levels (plain.convert t (expr_of a.now)) + 6) < 2 ^ 32 }
    ensures code { OnOk result (code.new.items ≡ code.old.items ++ expr_in scope.now (plain.convert t (expr_of a.now)) r next.old) }
    ensures next { OnOk result (next.new ≡ next.old + labels (plain.convert t (expr_of a.now))) }
    ensures held { IfOk result (λ of. of ≡ held_in scope.now (plain.convert t (expr_of a.now))) }
{
    let l = *next;
    *next += 1;
    let from = emit_expr(alloc, scope, a, r, next, code)?;
    put_convert(code, from, t, r, l)?;
    Ok(t)
}

// 1 where both are not 0; the second is evaluated only where the first is not 0.
#[cycle(emit)]
fn emit_both<'a>(
    alloc: Global,
    scope: &Scope<'a>,
    a: &'a CoreExpr,
    b: &'a CoreExpr,
    r: u32,
    next: &mut u32,
    code: &mut Vec<Mid>,
) -> Result<IntType, NoMemory>
    requires scope { IsScope scope.now }
    requires sizes { HasSizes (program_in scope.now) (locals_in scope.now) (expr_of a.now) × HasSizes (program_in scope.now) (locals_in scope.now) (expr_of b.now) }
    requires labels { next.old + labels (plain.both (expr_of a.now) (expr_of b.now)) < 2 ^ 32 }
    requires values { r + (2 * expr_levels (plain.both (expr_of a.now) (expr_of b.now)) + 6) < 2 ^ 32 }
    ensures code { OnOk result (code.new.items ≡ code.old.items ++ expr_in scope.now (plain.both (expr_of a.now) (expr_of b.now)) r next.old) }
    ensures next { OnOk result (next.new ≡ next.old + labels (plain.both (expr_of a.now) (expr_of b.now))) }
    ensures held { IfOk result (λ of. of ≡ held_in scope.now (plain.both (expr_of a.now) (expr_of b.now))) }
{
    let l = *next;
    *next += 2;
    let first = emit_expr(alloc, scope, a, r, next, code)?;
    put_zero(code, Test::Eq, is_wide(first), r, l)?;
    let second = emit_expr(alloc, scope, b, r, next, code)?;
    put_zero(code, Test::Eq, is_wide(second), r, l)?;
    put_falsity(code, r, l)?;
    Ok(IntType::I16)
}

// 1 where one of the two is not 0; the second is evaluated only where the first is 0.
#[cycle(emit)]
fn emit_either<'a>(
    alloc: Global,
    scope: &Scope<'a>,
    a: &'a CoreExpr,
    b: &'a CoreExpr,
    r: u32,
    next: &mut u32,
    code: &mut Vec<Mid>,
) -> Result<IntType, NoMemory>
    requires scope { IsScope scope.now }
    requires sizes { HasSizes (program_in scope.now) (locals_in scope.now) (expr_of a.now) × HasSizes (program_in scope.now) (locals_in scope.now) (expr_of b.now) }
    requires labels { next.old + labels (plain.either (expr_of a.now) (expr_of b.now)) < 2 ^ 32 }
    requires values { r + (2 * expr_levels (plain.either (expr_of a.now) (expr_of b.now)) + 6) < 2 ^ 32 }
    ensures code { OnOk result (code.new.items ≡ code.old.items ++ expr_in scope.now (plain.either (expr_of a.now) (expr_of b.now)) r next.old) }
    ensures next { OnOk result (next.new ≡ next.old + labels (plain.either (expr_of a.now) (expr_of b.now))) }
    ensures held { IfOk result (λ of. of ≡ held_in scope.now (plain.either (expr_of a.now) (expr_of b.now))) }
{
    let l = *next;
    *next += 2;
    let first = emit_expr(alloc, scope, a, r, next, code)?;
    put_zero(code, Test::Ne, is_wide(first), r, l)?;
    let second = emit_expr(alloc, scope, b, r, next, code)?;
    put_zero(code, Test::Ne, is_wide(second), r, l)?;
    put_truth(code, r, l)?;
    Ok(IntType::I16)
}

// One of two, by a test.
#[cycle(emit)]
fn emit_choice<'a>(
    alloc: Global,
    scope: &Scope<'a>,
    test: &'a CoreExpr,
    a: &'a CoreExpr,
    b: &'a CoreExpr,
    r: u32,
    next: &mut u32,
    code: &mut Vec<Mid>,
) -> Result<IntType, NoMemory>
    requires scope { IsScope scope.now }
    requires sizes { HasSizes (program_in scope.now) (locals_in scope.now) (expr_of test.now) × HasSizes (program_in scope.now) (locals_in scope.now) (expr_of a.now) × HasSizes (program_in scope.now) (locals_in scope.now) (expr_of b.now) }
    requires labels { next.old + labels (plain.choice (expr_of test.now) (expr_of a.now) (expr_of b.now)) < 2 ^ 32 }
    requires values { r + (2 * expr_levels (plain.choice (expr_of test.now) (expr_of a.now) (expr_of b.now)) + 6) < 2 ^ 32 }
    ensures code { OnOk result (code.new.items ≡ code.old.items ++ expr_in scope.now (plain.choice (expr_of test.now) (expr_of a.now) (expr_of b.now)) r next.old) }
    ensures next { OnOk result (next.new ≡ next.old + labels (plain.choice (expr_of test.now) (expr_of a.now) (expr_of b.now))) }
    ensures held { IfOk result (λ of. of ≡ held_in scope.now (plain.choice (expr_of test.now) (expr_of a.now) (expr_of b.now))) }
{
    let l = *next;
    *next += 2;
    let tested = emit_expr(alloc, scope, test, r, next, code)?;
    put_zero(code, Test::Eq, is_wide(tested), r, l)?;
    let of = emit_expr(alloc, scope, a, r, next, code)?;
    put(code, Mid::Jump(l + 1))?;
    put(code, Mid::Label(l))?;
    emit_expr(alloc, scope, b, r, next, code)?;
    put(code, Mid::Label(l + 1))?;
    Ok(of)
}

// The place, then the value, then the store.
#[cycle(emit)]
fn emit_assign<'a>(
    alloc: Global,
    scope: &Scope<'a>,
    place: &'a Place,
    a: &'a CoreExpr,
    r: u32,
    next: &mut u32,
    code: &mut Vec<Mid>,
) -> Result<IntType, NoMemory>
    requires scope { IsScope scope.now }
    requires sizes { PlaceHasSizes (program_in scope.now) (locals_in scope.now) (place_of place.now) × HasSizes (program_in scope.now) (locals_in scope.now) (expr_of a.now) }
    requires labels { next.old + labels (plain.assign (place_of place.now) (expr_of a.now) nowhere) < 2 ^ 32 }
    requires values { r + (2 * expr_levels (plain.assign (place_of place.now) (expr_of a.now) nowhere) + 6) < 2 ^ 32 }
    ensures code { OnOk result (code.new.items ≡ code.old.items ++ expr_in scope.now (plain.assign (place_of place.now) (expr_of a.now) nowhere) r next.old) }
    ensures next { OnOk result (next.new ≡ next.old + labels (plain.assign (place_of place.now) (expr_of a.now) nowhere)) }
    ensures held { IfOk result (λ of. of ≡ held_in scope.now (plain.assign (place_of place.now) (expr_of a.now) nowhere)) }
{
    let target = emit_place(alloc, scope, place, r, next, code)?;
    emit_expr(alloc, scope, a, r + 2, next, code)?;
    let of = number_of(target);
    put_in_place(code, kind_of(scope, place), of, r + 2, r)?;
    put_move(code, is_wide(of), r, r + 2)?;
    Ok(of)
}

// The place, its old value, then the other operand, then the store.
#[cycle(emit)]
fn emit_update<'a>(
    alloc: Global,
    scope: &Scope<'a>,
    place: &'a Place,
    change: Change,
    a: &'a CoreExpr,
    r: u32,
    next: &mut u32,
    code: &mut Vec<Mid>,
) -> Result<IntType, NoMemory>
    requires scope { IsScope scope.now }
    requires sizes { PlaceHasSizes (program_in scope.now) (locals_in scope.now) (place_of place.now) × HasSizes (program_in scope.now) (locals_in scope.now) (expr_of a.now) }
    requires labels { next.old + labels (plain.update (place_of place.now) change.op change.at (expr_of a.now) change.gives_old nowhere) < 2 ^ 32 }
    requires values { r + (2 * expr_levels (plain.update (place_of place.now) change.op change.at (expr_of a.now) change.gives_old nowhere) + 6) < 2 ^ 32 }
    ensures code { OnOk result (code.new.items ≡ code.old.items ++ expr_in scope.now (plain.update (place_of place.now) change.op change.at (expr_of a.now) change.gives_old nowhere) r next.old) }
    ensures next { OnOk result (next.new ≡ next.old + labels (plain.update (place_of place.now) change.op change.at (expr_of a.now) change.gives_old nowhere)) }
    ensures held { IfOk result (λ of. of ≡ held_in scope.now (plain.update (place_of place.now) change.op change.at (expr_of a.now) change.gives_old nowhere)) }
{
    let l = *next;
    *next += 5;
    let kind = kind_of(scope, place);
    let of = number_of(emit_place(alloc, scope, place, r, next, code)?);
    put_fetch(code, kind, of, r + 2, r)?;
    let second = emit_expr(alloc, scope, a, r + 4, next, code)?;
    put_update(alloc, code, kind, of, change, second, r, l)?;
    Ok(of)
}

// The address of a place.
#[cycle(emit)]
fn emit_address<'a>(
    alloc: Global,
    scope: &Scope<'a>,
    place: &'a Place,
    r: u32,
    next: &mut u32,
    code: &mut Vec<Mid>,
) -> Result<IntType, NoMemory>
    requires scope { IsScope scope.now }
    requires sizes { PlaceHasSizes (program_in scope.now) (locals_in scope.now) (place_of place.now) }
    requires labels { next.old + labels (plain.addr (place_of place.now)) < 2 ^ 32 }
    requires values { r + (2 * expr_levels (plain.addr (place_of place.now)) + 6) < 2 ^ 32 }
    ensures code { OnOk result (code.new.items ≡ code.old.items ++ expr_in scope.now (plain.addr (place_of place.now)) r next.old) }
    ensures next { OnOk result (next.new ≡ next.old + labels (plain.addr (place_of place.now))) }
    ensures held { IfOk result (λ of. of ≡ held_in scope.now (plain.addr (place_of place.now))) }
{
    emit_place(alloc, scope, place, r, next, code)?;
    put_address(code, kind_of(scope, place), r)?;
    Ok(IntType::U16)
}

// A pointer that moves by a number of elements of this size.
#[cycle(emit)]
fn emit_offset<'a>(
    alloc: Global,
    scope: &Scope<'a>,
    a: &'a CoreExpr,
    b: &'a CoreExpr,
    size: u32,
    r: u32,
    next: &mut u32,
    code: &mut Vec<Mid>,
) -> Result<IntType, NoMemory>
    requires scope { IsScope scope.now }
    requires sizes { HasSizes (program_in scope.now) (locals_in scope.now) (expr_of a.now) × HasSizes (program_in scope.now) (locals_in scope.now) (expr_of b.now) }
    requires labels { next.old + labels (plain.offset (expr_of a.now) (expr_of b.now) size) < 2 ^ 32 }
    requires values { r + (2 * expr_levels (plain.offset (expr_of a.now) (expr_of b.now) size) + 6) < 2 ^ 32 }
    ensures code { OnOk result (code.new.items ≡ code.old.items ++ expr_in scope.now (plain.offset (expr_of a.now) (expr_of b.now) size) r next.old) }
    ensures next { OnOk result (next.new ≡ next.old + labels (plain.offset (expr_of a.now) (expr_of b.now) size)) }
    ensures held { IfOk result (λ of. of ≡ held_in scope.now (plain.offset (expr_of a.now) (expr_of b.now) size)) }
{
    emit_expr(alloc, scope, a, r, next, code)?;
    emit_expr(alloc, scope, b, r + 2, next, code)?;
    put_offset(alloc, code, size, r)?;
    Ok(IntType::U16)
}

// How many elements of this size two pointers are apart.
#[cycle(emit)]
fn emit_distance<'a>(
    alloc: Global,
    scope: &Scope<'a>,
    a: &'a CoreExpr,
    b: &'a CoreExpr,
    size: u32,
    r: u32,
    next: &mut u32,
    code: &mut Vec<Mid>,
) -> Result<IntType, NoMemory>
    requires scope { IsScope scope.now }
    requires sizes { HasSizes (program_in scope.now) (locals_in scope.now) (expr_of a.now) × HasSizes (program_in scope.now) (locals_in scope.now) (expr_of b.now) }
    requires labels { next.old + labels (plain.distance (expr_of a.now) (expr_of b.now) size) < 2 ^ 32 }
    requires values { r + (2 * expr_levels (plain.distance (expr_of a.now) (expr_of b.now) size) + 6) < 2 ^ 32 }
    ensures code { OnOk result (code.new.items ≡ code.old.items ++ expr_in scope.now (plain.distance (expr_of a.now) (expr_of b.now) size) r next.old) }
    ensures next { OnOk result (next.new ≡ next.old + labels (plain.distance (expr_of a.now) (expr_of b.now) size)) }
    ensures held { IfOk result (λ of. of ≡ held_in scope.now (plain.distance (expr_of a.now) (expr_of b.now) size)) }
{
    emit_expr(alloc, scope, a, r, next, code)?;
    emit_expr(alloc, scope, b, r + 2, next, code)?;
    put_distance(alloc, code, size, r)?;
    Ok(IntType::I16)
}

// A call, behind its arguments.
#[cycle(emit)]
fn emit_call<'a>(
    alloc: Global,
    scope: &Scope<'a>,
    f: u32,
    args: &'a List<CoreExpr>,
    r: u32,
    next: &mut u32,
    code: &mut Vec<Mid>,
) -> Result<IntType, NoMemory>
    requires scope { IsScope scope.now }
    requires sizes { AllHaveSizes (program_in scope.now) (locals_in scope.now) (exprs_of args.now) }
    requires labels { next.old + labels (plain.call f (exprs_of args.now) nowhere) < 2 ^ 32 }
    requires values { r + (2 * expr_levels (plain.call f (exprs_of args.now) nowhere) + 6) < 2 ^ 32 }
    ensures code { OnOk result (code.new.items ≡ code.old.items ++ expr_in scope.now (plain.call f (exprs_of args.now) nowhere) r next.old) }
    ensures next { OnOk result (next.new ≡ next.old + labels (plain.call f (exprs_of args.now) nowhere)) }
    ensures held { IfOk result (λ of. of ≡ held_in scope.now (plain.call f (exprs_of args.now) nowhere)) }
{
    let passed = emit_args(alloc, scope, args, r, next, code)?;
    let given = result_type(scope.program, f);
    put_call(alloc, code, f, passed, given, r)?;
    Ok(number_of(given))
}

// What is written to a port.
#[cycle(emit)]
fn emit_out<'a>(
    alloc: Global,
    scope: &Scope<'a>,
    port: u16,
    a: &'a CoreExpr,
    r: u32,
    next: &mut u32,
    code: &mut Vec<Mid>,
) -> Result<IntType, NoMemory>
    requires scope { IsScope scope.now }
    requires sizes { HasSizes (program_in scope.now) (locals_in scope.now) (expr_of a.now) }
    requires labels { next.old + labels (plain.port_out port (expr_of a.now)) < 2 ^ 32 }
    requires values { r + (2 * expr_levels (plain.port_out port (expr_of a.now)) + 6) < 2 ^ 32 }
    ensures code { OnOk result (code.new.items ≡ code.old.items ++ expr_in scope.now (plain.port_out port (expr_of a.now)) r next.old) }
    ensures next { OnOk result (next.new ≡ next.old + labels (plain.port_out port (expr_of a.now))) }
    ensures held { IfOk result (λ of. of ≡ held_in scope.now (plain.port_out port (expr_of a.now))) }
{
    emit_expr(alloc, scope, a, r, next, code)?;
    put(code, Mid::Out(port, r))?;
    Ok(IntType::U16)
}

// Two expressions, of which the second gives the value.
#[cycle(emit)]
fn emit_comma<'a>(
    alloc: Global,
    scope: &Scope<'a>,
    a: &'a CoreExpr,
    b: &'a CoreExpr,
    r: u32,
    next: &mut u32,
    code: &mut Vec<Mid>,
) -> Result<IntType, NoMemory>
    requires scope { IsScope scope.now }
    requires sizes { HasSizes (program_in scope.now) (locals_in scope.now) (expr_of a.now) × HasSizes (program_in scope.now) (locals_in scope.now) (expr_of b.now) }
    requires labels { next.old + labels (plain.comma (expr_of a.now) (expr_of b.now)) < 2 ^ 32 }
    requires values { r + (2 * expr_levels (plain.comma (expr_of a.now) (expr_of b.now)) + 6) < 2 ^ 32 }
    ensures code { OnOk result (code.new.items ≡ code.old.items ++ expr_in scope.now (plain.comma (expr_of a.now) (expr_of b.now)) r next.old) }
    ensures next { OnOk result (next.new ≡ next.old + labels (plain.comma (expr_of a.now) (expr_of b.now))) }
    ensures held { IfOk result (λ of. of ≡ held_in scope.now (plain.comma (expr_of a.now) (expr_of b.now))) }
{
    emit_expr(alloc, scope, a, r, next, code)?;
    emit_expr(alloc, scope, b, r, next, code)
}

// The address of a place, or its place in the frame, comes to r. The answer is its type.
#[cycle(emit)]
fn emit_place<'a>(
    alloc: Global,
    scope: &Scope<'a>,
    place: &'a Place,
    r: u32,
    next: &mut u32,
    code: &mut Vec<Mid>,
) -> Result<Option<&'a CoreType>, NoMemory>
    requires scope { IsScope scope.now }
    requires sizes { PlaceHasSizes (program_in scope.now) (locals_in scope.now) (place_of place.now) }
    requires labels { next.old + place_labels (place_of place.now) < 2 ^ 32 }
    requires values { r + (2 * place_levels (place_of place.now) + 6) < 2 ^ 32 }
    ensures code { OnOk result (code.new.items ≡ code.old.items ++ place_in scope.now (place_of place.now) r next.old) }
    ensures next { OnOk result (next.new ≡ next.old + place_labels (place_of place.now)) }
    ensures ty { IfOk result (λ t. type_in (option_copied t) ≡ places.place_type (program_in scope.now) (locals_in scope.now) (place_of place.now)) }
{
    match place {
        Place::Object(k) => {
            put(code, Mid::Set(r, object_address(scope.program, *k)))?;
            Ok(object_type(scope.program, *k))
        }
        Place::Local(x) => {
            put_local(code, scope.spots, *x, r)?;
            Ok(scope.locals.get(*x as usize))
        }
        Place::Deref(e, t) => {
            emit_expr(alloc, scope, e, r, next, code)?;
            put_check(alloc, code, check_of(scope.checks, t), r)?;
            Ok(Some(t))
        }
        Place::Index(base, e) => {
            let l = *next;
            *next += 2;
            let array = emit_place(alloc, scope, base, r, next, code)?;
            let of = emit_expr(alloc, scope, e, r + 2, next, code)?;
            let element = element_of(array);
            let size = size_of(&scope.program.structs, element);
            put_element(alloc, code, of, count_of(array), size, r, l)?;
            Ok(element)
        }
        Place::Field(base, k) => {
            let whole = emit_place(alloc, scope, base, r, next, code)?;
            let structs = &scope.program.structs;
            put(code, Mid::Set(r + 2, field_offset(structs, whole, *k)))?;
            put(code, Mid::Bin(Op::Add, r, r, r + 2))?;
            Ok(field_type(structs, whole, *k))
        }
    }
}

// Arguments, one behind the other. The answer is the values that hold them.
#[cycle(emit)]
fn emit_args<'a>(
    alloc: Global,
    scope: &Scope<'a>,
    args: &'a List<CoreExpr>,
    r: u32,
    next: &mut u32,
    code: &mut Vec<Mid>,
) -> Result<Vec<u32>, NoMemory>
    requires scope { IsScope scope.now }
    requires sizes { AllHaveSizes (program_in scope.now) (locals_in scope.now) (exprs_of args.now) }
    requires labels { next.old + all_labels (exprs_of args.now) < 2 ^ 32 }
    requires values { r + (2 * (1 + exprs_levels (exprs_of args.now) 0) + 6) < 2 ^ 32 }
    ensures code { OnOk result (code.new.items ≡ code.old.items ++ args_in scope.now (exprs_of args.now) r next.old) }
    ensures next { OnOk result (next.new ≡ next.old + all_labels (exprs_of args.now)) }
    ensures passed { IfOk result (λ v. v.items ≡ passed_in scope.now (exprs_of args.now) r) }
{
    let mut passed = Vec::new(alloc);
    let mut at = r;
    for arg in args.as_slice() {
        let of = emit_expr(alloc, scope, arg, at, next, code)?;
        push_values(&mut passed, is_wide(of), at)?;
        at += 2;
    }
    Ok(passed)
}
