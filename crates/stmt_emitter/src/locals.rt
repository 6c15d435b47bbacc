//! Locals that become 0, or the value of an expression.

ghost use Rattle.std.specs.Prelude.{◌≡◌, ◌++◌, ◌+◌, ◌*◌, ◌<◌, ◌≤◌, ◌^◌, ℕ, OnOk, Some, option_copied, slice_get, slice_index_or};
ghost use Rattle.core_meaning.specs.Layout as layout;
ghost use Rattle.nesc_core.specs.Plain.{void};
ghost use Rattle.lower_expr.specs.declared.spot.Spot.TheVariants.{Frame};
ghost use Rattle.expr_emitter.specs.Scoped.{expr_in, locals_in, program_in};
ghost use Rattle.expr_emitter.specs.Sizes.{AllHaveSizes, HasSizes};
ghost use Rattle.lower_expr.specs.Code as expressions;
ghost use Rattle.lower_expr.specs.Code.{all_labels, keep_code, kind_of_spot, labels, local_code, poke_code, put_code};
ghost use Rattle.lower_stmt.specs.Code.{zero_bytes_code, zero_local_code, zero_regs_code};
ghost use Rattle.nesc_core.specs.PlaceTypes.{type_in};
ghost use Rattle.nesc_core.specs.View.{expr_of, exprs_of};
ghost use Rattle.nesc_core.specs.Weights.{expr_levels, greatest_levels};
ghost use Rattle.stmt_emitter.specs.Located.{clear_in, clears_in, enter_in, gives_in, kept_in, result_in};
ghost use Rattle.stmt_emitter.specs.Standing.{IsPlaced};

use expr_emitter::numbers::is_wide;
use expr_emitter::put::put;
use expr_emitter::types::{is_void, number_of, size_of};
use expr_emitter::{Scope, emit_expr};
use lower_expr::{Regs, Spot};
use mid_code::{Mid, Op, Test};
use nesc_core::{CoreExpr, CoreType};
use nm_base::{IntType, List, NoMemory};
use std::alloc::Global;

fn value_named(v: Option<u32>) -> u32
    ensures { result ≡ expressions.value_named v }
{
    match v {
        None => 0,
        Some(v) => v,
    }
}

fn put_zero_regs(code: &mut Vec<Mid>, wide: bool, regs: Regs) -> Result<(), NoMemory>
    ensures { OnOk result (code.new.items ≡ code.old.items ++ zero_regs_code wide regs) }
{
    if wide {
        put(code, Mid::Set(value_named(regs.low), 0))?;
        put(code, Mid::Set(value_named(regs.high), 0))
    } else {
        put(code, Mid::Set(value_named(regs.low), 0))
    }
}

// So many bytes of the frame; two labels.
fn put_zero_bytes(code: &mut Vec<Mid>, size: u32, o: u16, r: u32, l: u32) -> Result<(), NoMemory>
    requires inside { o + size ≤ 65535 }
    requires values { r + 3 < 2 ^ 32 }
    requires labels { l + 1 < 2 ^ 32 }
    ensures { OnOk result (code.new.items ≡ code.old.items ++ zero_bytes_code size o r l) }
{
    put(code, Mid::Set(r, o))?;
    put(code, Mid::Set(r + 1, 0))?;
    put(code, Mid::Set(r + 2, (u32::from(o) + size) as u16))?;
    put(code, Mid::Set(r + 3, 1))?;
    put(code, Mid::Label(l))?;
    put(code, Mid::Branch(Test::Eq, r, r + 2, l + 1))?;
    put(code, Mid::Poke(false, r + 1, r))?;
    put(code, Mid::Bin(Op::Add, r, r, r + 3))?;
    put(code, Mid::Jump(l))?;
    put(code, Mid::Label(l + 1))
}

fn put_zero_local(
    code: &mut Vec<Mid>,
    spot: Option<Spot>,
    t: Option<&CoreType>,
    size: u32,
    r: u32,
    l: u32,
) -> Result<(), NoMemory>
    requires inside { (o : ℕ) → spot ≡ Some (Frame o) → o + size ≤ 65535 }
    requires values { r + 3 < 2 ^ 32 }
    requires labels { l + 1 < 2 ^ 32 }
    ensures { OnOk result (code.new.items ≡ code.old.items ++ zero_local_code spot (type_in (option_copied t.entry)) size r l) }
{
    match spot {
        None => Ok(()),
        Some(Spot::Values(regs)) => put_zero_regs(code, is_wide(number_of(t)), regs),
        Some(Spot::Frame(o)) => put_zero_bytes(code, size, o, r, l),
    }
}

fn local_type<'a>(scope: &Scope<'a>, x: usize) -> Option<&'a CoreType>
    ensures { type_in (option_copied result) ≡ slice_index_or (locals_in scope.now) x void }
{
    scope.locals.get(x)
}

fn spot_of(spots: &[Spot], x: usize) -> Option<Spot>
    ensures { result ≡ slice_get spots.now x }
{
    spots.get(x).copied()
}

fn local_size(scope: &Scope, x: usize) -> u32
    requires { IsPlaced scope.now }
    ensures { result ≡ layout.size_of (program_in scope.now) (slice_index_or (locals_in scope.now) x void) }
{
    size_of(&scope.program.structs, local_type(scope, x))
}

/// Local x becomes 0; two labels.
pub(crate) fn put_clear(
    code: &mut Vec<Mid>,
    scope: &Scope,
    x: usize,
    r: u32,
    l: u32,
) -> Result<(), NoMemory>
    requires placed { IsPlaced scope.now }
    requires values { r + 3 < 2 ^ 32 }
    requires labels { l + 1 < 2 ^ 32 }
    ensures { OnOk result (code.new.items ≡ code.old.items ++ clear_in scope.now r x l) }
{
    let spot = spot_of(scope.spots, x);
    put_zero_local(code, spot, local_type(scope, x), local_size(scope, x), r, l)
}

/// So many locals from x on become 0; two labels for each.
#[tactic(auto, using(crate::proofs::Clears::first_clear))]
pub(crate) fn put_clears(
    code: &mut Vec<Mid>,
    scope: &Scope,
    count: u32,
    x: usize,
    r: u32,
    l: u32,
) -> Result<(), NoMemory>
    requires placed { IsPlaced scope.now }
    requires locals { x + count < 2 ^ 40 }
    requires values { r + 3 < 2 ^ 32 }
    requires labels { l + 2 * count < 2 ^ 32 }
    ensures { OnOk result (code.new.items ≡ code.old.items ++ clears_in scope.now r count x l) }
{
    let mut left = count;
    let mut at = x;
    let mut label = l;
    while 0 < left {
        put_clear(code, scope, at, r, label)?;
        left -= 1;
        at += 1;
        label += 2;
    }
    Ok(())
}

fn put_keep(code: &mut Vec<Mid>, wide: bool, regs: Regs, v: u32) -> Result<(), NoMemory>
    requires { v + 1 < 2 ^ 32 }
    ensures { OnOk result (code.new.items ≡ code.old.items ++ keep_code wide regs v) }
{
    if wide {
        put(code, Mid::Move(value_named(regs.low), v))?;
        put(code, Mid::Move(value_named(regs.high), v + 1))
    } else {
        put(code, Mid::Move(value_named(regs.low), v))
    }
}

fn takes_word(t: IntType) -> bool
    ensures { result ≡ expressions.takes_word t }
{
    match t {
        IntType::I8 | IntType::U8 => false,
        IntType::I16 | IntType::U16 | IntType::I32 | IntType::U32 => true,
    }
}

fn put_poke(code: &mut Vec<Mid>, t: IntType, v: u32, r: u32) -> Result<(), NoMemory>
    requires value { v + 1 < 2 ^ 32 }
    requires place { r + 1 < 2 ^ 32 }
    ensures { OnOk result (code.new.items ≡ code.old.items ++ poke_code t v r) }
{
    if is_wide(t) {
        put(code, Mid::Poke(true, v, r))?;
        put(code, Mid::Set(r + 1, 2))?;
        put(code, Mid::Bin(Op::Add, r + 1, r, r + 1))?;
        put(code, Mid::Poke(true, v + 1, r + 1))
    } else {
        put(code, Mid::Poke(takes_word(t), v, r))
    }
}

// What leads to a local: nothing where it is in values.
fn put_local(code: &mut Vec<Mid>, spot: Option<Spot>, r: u32) -> Result<(), NoMemory>
    ensures { OnOk result (code.new.items ≡ code.old.items ++ local_code spot r) }
{
    match spot {
        None => put(code, Mid::Set(r, 0)),
        Some(Spot::Values(_)) => Ok(()),
        Some(Spot::Frame(o)) => put(code, Mid::Set(r, o)),
    }
}

// The number in `v` becomes that of a local, to which what is in `r` leads.
fn put_in_local(
    code: &mut Vec<Mid>,
    spot: Option<Spot>,
    t: IntType,
    v: u32,
    r: u32,
) -> Result<(), NoMemory>
    requires value { v + 1 < 2 ^ 32 }
    requires place { r + 1 < 2 ^ 32 }
    ensures { OnOk result (code.new.items ≡ code.old.items ++ put_code (kind_of_spot spot) t v r) }
{
    match spot {
        Some(Spot::Values(regs)) => put_keep(code, is_wide(t), regs, v),
        None | Some(Spot::Frame(_)) => put_poke(code, t, v, r),
    }
}

/// What an inlined call gives: the type of local x, where it gives a value.
pub(crate) fn given_type<'a>(scope: &Scope<'a>, gives: bool, x: usize) -> Option<&'a CoreType>
    ensures { (base : ℕ) → type_in (option_copied result) ≡ gives_in scope.now base gives x }
{
    if gives { local_type(scope, x) } else { None }
}

/// Where an inlined call gives a value, it becomes that of local x.
pub(crate) fn put_result(
    code: &mut Vec<Mid>,
    scope: &Scope,
    gives: bool,
    x: usize,
    base: u32,
) -> Result<(), NoMemory>
    requires { base + 3 < 2 ^ 32 }
    ensures { OnOk result (code.new.items ≡ code.old.items ++ result_in scope.now base gives x) }
{
    if !gives {
        return Ok(());
    }
    let t = local_type(scope, x);
    let spot = spot_of(scope.spots, x);
    if is_void(t) {
        Ok(())
    } else {
        put_local(code, spot, base)?;
        put_in_local(code, spot, number_of(t), base + 2, base)
    }
}

// The value of an expression becomes that of local x.
fn emit_argument<'a>(
    alloc: Global,
    scope: &Scope<'a>,
    base: u32,
    x: usize,
    e: &'a CoreExpr,
    next: &mut u32,
    code: &mut Vec<Mid>,
) -> Result<(), NoMemory>
    requires placed { IsPlaced scope.now }
    requires sizes { HasSizes (program_in scope.now) (locals_in scope.now) (expr_of e.now) }
    requires labels { next.old + labels (expr_of e.now) < 2 ^ 32 }
    requires values { base + (2 * expr_levels (expr_of e.now) + 8) < 2 ^ 32 }
    ensures code { OnOk result (code.new.items ≡ code.old.items ++ kept_in scope.now base x (expr_in scope.now (expr_of e.now) (base + 2) next.old)) }
    ensures next { OnOk result (next.new ≡ next.old + labels (expr_of e.now)) }
{
    let t = local_type(scope, x);
    let spot = spot_of(scope.spots, x);
    if is_void(t) {
        emit_expr(alloc, scope, e, base + 2, next, code)?;
        Ok(())
    } else {
        put_local(code, spot, base)?;
        emit_expr(alloc, scope, e, base + 2, next, code)?;
        put_in_local(code, spot, number_of(t), base + 2, base)
    }
}

/// Each argument becomes the value of a local, from x on.
pub(crate) fn emit_enter<'a>(
    alloc: Global,
    scope: &Scope<'a>,
    base: u32,
    args: &'a List<CoreExpr>,
    x: u32,
    next: &mut u32,
    code: &mut Vec<Mid>,
) -> Result<(), NoMemory>
    requires placed { IsPlaced scope.now }
    requires sizes { AllHaveSizes (program_in scope.now) (locals_in scope.now) (exprs_of args.now) }
    requires labels { next.old + all_labels (exprs_of args.now) < 2 ^ 32 }
    requires values { base + (2 * greatest_levels (exprs_of args.now) + 8) < 2 ^ 32 }
    ensures code { OnOk result (code.new.items ≡ code.old.items ++ enter_in scope.now base (exprs_of args.now) x next.old) }
    ensures next { OnOk result (next.new ≡ next.old + all_labels (exprs_of args.now)) }
{
    let mut at = x as usize;
    for arg in args.as_slice() {
        emit_argument(alloc, scope, base, at, arg, next, code)?;
        at += 1;
    }
    Ok(())
}
