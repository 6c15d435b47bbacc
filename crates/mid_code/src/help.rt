//! What helpers do.

ghost use Rattle.std.specs.Prelude.{◌≡◌, ◌<◌, ◌^◌, ◌/◌, ◌%◌, Some, IfOk, slice_get, pos, negsuc, ◌<ℤ◌, int_div, int_rem};
ghost use Rattle.std.specs.List.{list_any};
ghost use Rattle.nm_base.specs.IntType.{width, wrapped};
ghost use Rattle.mid_code.specs.Help as help;
ghost use Rattle.mid_code.specs.Help.{given_by, residue, shifted_right, unless_zero};
ghost use Rattle.mid_code.specs.declared.help.HelpOp.TheVariants as help_op;
ghost use Rattle.mid_code.specs.Words as words;

use crate::code::{Check, MidCode};
use nm_base::{IntType, NoMemory, wrap};
use std::alloc::Global;

/// Operations that code does not do in place.
#[derive(Clone, Copy, Debug, PartialEq, Eq)]
pub enum HelpOp {
    Mul,
    Div,
    Rem,
    Shl,
    Shr,
}

/// Check k is the helper of this number and k.
pub const FIRST_CHECK: u32 = 64;

/// The number of the helper that does an operation at a type. It passes and gives a number of 32 bits as its low half and its high
/// half; the count of a shift is one value, read as an unsigned number.
pub fn help_number(t: IntType, o: HelpOp) -> u32
    ensures { result ≡ help.number_of_help t o }
{
    8 * type_place(t) + operation_place(o)
}

fn type_place(t: IntType) -> u32
    ensures value { result ≡ help.type_place t }
    ensures small { result < 6 }
{
    match t {
        IntType::I8 => 0,
        IntType::U8 => 1,
        IntType::I16 => 2,
        IntType::U16 => 3,
        IntType::I32 => 4,
        IntType::U32 => 5,
    }
}

fn operation_place(o: HelpOp) -> u32
    ensures value { result ≡ help.operation_place o }
    ensures small { result < 5 }
{
    match o {
        HelpOp::Mul => 0,
        HelpOp::Div => 1,
        HelpOp::Rem => 2,
        HelpOp::Shl => 3,
        HelpOp::Shr => 4,
    }
}

pub(crate) fn type_at(n: u32) -> Option<IntType>
    ensures { result ≡ help.type_at n }
{
    if n == 0 {
        Some(IntType::I8)
    } else if n == 1 {
        Some(IntType::U8)
    } else if n == 2 {
        Some(IntType::I16)
    } else if n == 3 {
        Some(IntType::U16)
    } else if n == 4 {
        Some(IntType::I32)
    } else if n == 5 {
        Some(IntType::U32)
    } else {
        None
    }
}

pub(crate) fn operation_at(n: u32) -> Option<HelpOp>
    ensures { result ≡ help.operation_at n }
{
    if n == 0 {
        Some(HelpOp::Mul)
    } else if n == 1 {
        Some(HelpOp::Div)
    } else if n == 2 {
        Some(HelpOp::Rem)
    } else if n == 3 {
        Some(HelpOp::Shl)
    } else if n == 4 {
        Some(HelpOp::Shr)
    } else {
        None
    }
}

// A number from its low and its high half.
pub(crate) fn joined(values: &[u16]) -> u32
    ensures { result ≡ words.joined values.now }
{
    match values {
        [] => 0,
        [low] => u32::from(*low),
        [low, high, ..] => u32::from(*low) + 65_536 * u32::from(*high),
    }
}

fn modulus(t: IntType) -> u64
    ensures value { result ≡ 2 ^ width t }
    ensures some { 0 < result }
    ensures small { result < 2 ^ 33 }
{
    match t {
        IntType::I8 | IntType::U8 => 256,
        IntType::I16 | IntType::U16 => 65_536,
        IntType::I32 | IntType::U32 => 4_294_967_296,
    }
}

fn bits(t: IntType) -> u32
    ensures value { result ≡ width t }
    ensures small { result < 33 }
{
    match t {
        IntType::I8 | IntType::U8 => 8,
        IntType::I16 | IntType::U16 => 16,
        IntType::I32 | IntType::U32 => 32,
    }
}

fn number(t: IntType, x: u32) -> i64
    ensures value { result ≡ wrapped t (pos x) }
    ensures low { negsuc (2 ^ 32) <ℤ result }
    ensures high { result <ℤ pos (2 ^ 33) }
{
    wrap(t, i64::from(x))
}

fn residue_of(t: IntType, z: i64) -> u32
    ensures { result ≡ residue (width t) z }
{
    match t {
        IntType::I8 | IntType::U8 => z.rem_euclid(256).unsigned_abs() as u32,
        IntType::I16 | IntType::U16 => z.rem_euclid(65_536).unsigned_abs() as u32,
        IntType::I32 | IntType::U32 => z.rem_euclid(4_294_967_296).unsigned_abs() as u32,
    }
}

fn quotient(x: i64, y: i64) -> i64
    requires low { negsuc (2 ^ 32) <ℤ x }
    ensures { result ≡ unless_zero y (int_div x y) }
{
    if y == 0 { 0 } else { x / y }
}

fn remainder(x: i64, y: i64) -> i64
    requires low { negsuc (2 ^ 32) <ℤ x }
    ensures { result ≡ unless_zero y (int_rem x y) }
{
    if y == 0 { 0 } else { x % y }
}

// By 2 to the power of n, rounded down.
fn shift_right(t: IntType, x: i64, n: u32) -> i64
    ensures { result ≡ shifted_right t x n }
{
    if n < bits(t) {
        let divisor = 2u64.pow(n);
        if x >= 0 {
            (x.unsigned_abs() / divisor) as i64
        } else {
            -1 - ((-1 - x).unsigned_abs() / divisor) as i64
        }
    } else if x >= 0 {
        0
    } else {
        -1
    }
}

fn shift_left(t: IntType, x: u32, n: u32) -> u32
    ensures { result ≡ help.operation help_op.Shl t x n }
{
    if n < bits(t) {
        (u64::from(x) * 2u64.pow(n) % modulus(t)) as u32
    } else {
        0
    }
}

fn operation(o: HelpOp, t: IntType, x: u32, y: u32) -> u32
    ensures { result ≡ help.operation o t x y }
{
    match o {
        HelpOp::Mul => (u64::from(x) * u64::from(y) % modulus(t)) as u32,
        HelpOp::Div => residue_of(t, quotient(number(t, x), number(t, y))),
        HelpOp::Rem => residue_of(t, remainder(number(t, x), number(t, y))),
        HelpOp::Shl => shift_left(t, x, y),
        HelpOp::Shr => residue_of(t, shift_right(t, number(t, x), y)),
    }
}

fn is_wide(t: IntType) -> bool
    ensures { result ≡ help.is_wide t }
{
    matches!(t, IntType::I32 | IntType::U32)
}

fn halves(alloc: Global, t: IntType, x: u32) -> Result<Vec<u16>, NoMemory>
    ensures { IfOk result (λ v. v.items ≡ help.halves t x) }
{
    if is_wide(t) {
        Ok(Vec::from_array(alloc, [(x % 65_536) as u16, (x / 65_536) as u16])?)
    } else {
        Ok(Vec::from_array(alloc, [(x % 65_536) as u16])?)
    }
}

fn is_in_run(size: u16, x: u32, run: (u16, u16)) -> bool
    requires { 0 < size }
    ensures { result ≡ help.is_in_run size x run }
{
    let first = u32::from(run.0);
    let size = u32::from(size);
    if first <= x {
        (x - first) % size == 0 && (x - first) / size < u32::from(run.1)
    } else {
        false
    }
}

fn is_in_some_run(size: u16, x: u32, runs: &[(u16, u16)]) -> bool
    requires { 0 < size }
    ensures { result ≡ list_any (help.is_in_run size x) runs.now }
{
    runs.iter().any(|run| is_in_run(size, x, *run))
}

fn is_part(check: &Check, x: u32) -> bool
    ensures { result ≡ help.is_part (Some check.now) x }
{
    if check.size == 0 {
        return false;
    }
    is_in_some_run(check.size, x, check.runs.as_slice())
}

/// What a helper gives for the values passed; None is the fault of an address that is no part.
pub(crate) fn helped(
    alloc: Global,
    c: &MidCode,
    h: u32,
    passed: &[u16],
) -> Result<Option<Vec<u16>>, NoMemory>
    ensures { IfOk result (λ o. given_by o ≡ help.helped c.now h passed.now) }
{
    if h < FIRST_CHECK {
        Ok(Some(computed(alloc, h, passed)?))
    } else if checked(c, h - FIRST_CHECK, joined(passed)) {
        Ok(Some(Vec::new(alloc)))
    } else {
        Ok(None)
    }
}

fn checked(c: &MidCode, k: u32, x: u32) -> bool
    ensures { result ≡ help.is_part (slice_get c.now.checks k) x }
{
    match c.checks.as_slice().get(k as usize) {
        Some(check) => is_part(check, x),
        None => false,
    }
}

fn computed(alloc: Global, h: u32, passed: &[u16]) -> Result<Vec<u16>, NoMemory>
    ensures { IfOk result (λ v. v.items ≡ help.computed (help.type_at (h / 8)) (help.operation_at (h % 8)) passed.now) }
{
    let Some(t) = type_at(h / 8) else {
        return Ok(Vec::new(alloc));
    };
    let Some(o) = operation_at(h % 8) else {
        return Ok(Vec::new(alloc));
    };
    let places = if is_wide(t) { 2 } else { 1 };
    let first = passed.len().min(places);
    let x = joined(&passed[..first]);
    let y = joined(&passed[first..]);
    halves(alloc, t, operation(o, t, x, y))
}
