//! Accesses: reading and writing numbers in memory, in the frame, and in the values of locals.

ghost use Rattle.std.specs.Prelude.{◌≡◌, ◌++◌, ◌+◌, ◌<◌, ◌^◌, OnOk, Some, slice_get};
ghost use Rattle.expr_emitter.specs.Kinds.{kind_seen};
ghost use Rattle.lower_expr.specs.Code as spec;
ghost use Rattle.lower_expr.specs.Code.{address_code, fetch_code, keep_code, load_code, local_code, peek_code, poke_code, put_code, sign_code, store_code, take_code};

use crate::conversions::put_fit;
use crate::kinds::{Kind, value_named};
use crate::numbers::is_wide;
use crate::put::put;
use lower_expr::{Regs, Spot};
use mid_code::{Mid, Op};
use nm_base::{IntType, NoMemory};

fn takes_word(t: IntType) -> bool
    ensures { result ≡ spec.takes_word t }
{
    match t {
        IntType::I8 | IntType::U8 => false,
        IntType::I16 | IntType::U16 | IntType::I32 | IntType::U32 => true,
    }
}

// A byte that is read is not negative.
fn put_sign(code: &mut Vec<Mid>, t: IntType, d: u32) -> Result<(), NoMemory>
    requires { d + 1 < 2 ^ 32 }
    ensures { OnOk result (code.new.items ≡ code.old.items ++ sign_code t d) }
{
    match t {
        IntType::I8 => put_fit(code, IntType::I8, d),
        IntType::U8 | IntType::I16 | IntType::U16 | IntType::I32 | IntType::U32 => Ok(()),
    }
}

fn put_load(code: &mut Vec<Mid>, t: IntType, d: u32, r: u32) -> Result<(), NoMemory>
    requires { d + 1 < 2 ^ 32 }
    ensures { OnOk result (code.new.items ≡ code.old.items ++ load_code t d r) }
{
    if is_wide(t) {
        put(code, Mid::Set(d + 1, 2))?;
        put(code, Mid::Bin(Op::Add, d + 1, r, d + 1))?;
        put(code, Mid::Load(true, d, r))?;
        put(code, Mid::Load(true, d + 1, d + 1))
    } else {
        put(code, Mid::Load(takes_word(t), d, r))?;
        put_sign(code, t, d)
    }
}

fn put_peek(code: &mut Vec<Mid>, t: IntType, d: u32, r: u32) -> Result<(), NoMemory>
    requires { d + 1 < 2 ^ 32 }
    ensures { OnOk result (code.new.items ≡ code.old.items ++ peek_code t d r) }
{
    if is_wide(t) {
        put(code, Mid::Set(d + 1, 2))?;
        put(code, Mid::Bin(Op::Add, d + 1, r, d + 1))?;
        put(code, Mid::Peek(true, d, r))?;
        put(code, Mid::Peek(true, d + 1, d + 1))
    } else {
        put(code, Mid::Peek(takes_word(t), d, r))?;
        put_sign(code, t, d)
    }
}

fn put_store(code: &mut Vec<Mid>, t: IntType, v: u32, r: u32) -> Result<(), NoMemory>
    requires value { v + 1 < 2 ^ 32 }
    requires place { r + 1 < 2 ^ 32 }
    ensures { OnOk result (code.new.items ≡ code.old.items ++ store_code t v r) }
{
    if is_wide(t) {
        put(code, Mid::Store(true, v, r))?;
        put(code, Mid::Set(r + 1, 2))?;
        put(code, Mid::Bin(Op::Add, r + 1, r, r + 1))?;
        put(code, Mid::Store(true, v + 1, r + 1))
    } else {
        put(code, Mid::Store(takes_word(t), v, r))
    }
}

fn put_poke(code: &mut Vec<Mid>, t: IntType, v: u32, r: u32) -> Result<(), NoMemory>
    requires value { v + 1 < 2 ^ 32 }
    requires place { r + 1 < 2 ^ 32 }
    ensures { OnOk result (code.new.items ≡ code.old.items ++ poke_code t v r) }
{
    if is_wide(t) {
        put(code, Mid::Poke(true, v, r))?;
        put(code, Mid::Set(r + 1, 2))?;
        put(code, Mid::Bin(Op::Add, r + 1, r, r + 1))?;
        put(code, Mid::Poke(true, v + 1, r + 1))
    } else {
        put(code, Mid::Poke(takes_word(t), v, r))
    }
}

fn put_take(code: &mut Vec<Mid>, wide: bool, regs: Regs, d: u32) -> Result<(), NoMemory>
    requires { d + 1 < 2 ^ 32 }
    ensures { OnOk result (code.new.items ≡ code.old.items ++ take_code wide regs d) }
{
    if wide {
        put(code, Mid::Move(d, value_named(regs.low)))?;
        put(code, Mid::Move(d + 1, value_named(regs.high)))
    } else {
        put(code, Mid::Move(d, value_named(regs.low)))
    }
}

fn put_keep(code: &mut Vec<Mid>, wide: bool, regs: Regs, v: u32) -> Result<(), NoMemory>
    requires { v + 1 < 2 ^ 32 }
    ensures { OnOk result (code.new.items ≡ code.old.items ++ keep_code wide regs v) }
{
    if wide {
        put(code, Mid::Move(value_named(regs.low), v))?;
        put(code, Mid::Move(value_named(regs.high), v + 1))
    } else {
        put(code, Mid::Move(value_named(regs.low), v))
    }
}

/// Of the number at a place of this kind, which what is in `r` finds, to `d`.
pub(crate) fn put_fetch(
    code: &mut Vec<Mid>,
    kind: Kind,
    t: IntType,
    d: u32,
    r: u32,
) -> Result<(), NoMemory>
    requires { d + 1 < 2 ^ 32 }
    ensures { OnOk result (code.new.items ≡ code.old.items ++ fetch_code (kind_seen kind) t d r) }
{
    match kind {
        Kind::Values(regs) => put_take(code, is_wide(t), regs, d),
        Kind::Frame => put_peek(code, t, d, r),
        Kind::Memory => put_load(code, t, d, r),
    }
}

/// Of the number in `v`, to such a place.
pub(crate) fn put_in_place(
    code: &mut Vec<Mid>,
    kind: Kind,
    t: IntType,
    v: u32,
    r: u32,
) -> Result<(), NoMemory>
    requires value { v + 1 < 2 ^ 32 }
    requires place { r + 1 < 2 ^ 32 }
    ensures { OnOk result (code.new.items ≡ code.old.items ++ put_code (kind_seen kind) t v r) }
{
    match kind {
        Kind::Values(regs) => put_keep(code, is_wide(t), regs, v),
        Kind::Frame => put_poke(code, t, v, r),
        Kind::Memory => put_store(code, t, v, r),
    }
}

fn put_spot(code: &mut Vec<Mid>, spot: Spot, r: u32) -> Result<(), NoMemory>
    ensures { OnOk result (code.new.items ≡ code.old.items ++ local_code (Some spot) r) }
{
    match spot {
        Spot::Values(_) => Ok(()),
        Spot::Frame(o) => put(code, Mid::Set(r, o)),
    }
}

/// Local x: nothing leads to one that is in values.
pub(crate) fn put_local(code: &mut Vec<Mid>, spots: &[Spot], x: u32, r: u32) -> Result<(), NoMemory>
    ensures { OnOk result (code.new.items ≡ code.old.items ++ local_code (slice_get spots.now x) r) }
{
    match spots.get(x as usize) {
        None => put(code, Mid::Set(r, 0)),
        Some(spot) => put_spot(code, *spot, r),
    }
}

/// A local has no address.
pub(crate) fn put_address(code: &mut Vec<Mid>, kind: Kind, r: u32) -> Result<(), NoMemory>
    ensures { OnOk result (code.new.items ≡ code.old.items ++ address_code (kind_seen kind) r) }
{
    match kind {
        Kind::Memory => Ok(()),
        Kind::Values(_) | Kind::Frame => put(code, Mid::Set(r, 0)),
    }
}
