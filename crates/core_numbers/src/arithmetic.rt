//! What operators give on numbers of each integer type.

ghost use Rattle.std.specs.Prelude.{◌≡◌, ◌<◌, ◌+ℤ◌, ◌-ℤ◌, ◌*ℤ◌, ◌^◌, int_div, pos};
ghost use Rattle.std.specs.Int.{int_wrap, w64};
ghost use Rattle.core_meaning.specs.Numbers as numbers;
ghost use Rattle.nesc_core.specs.declared.tree.BinOp as BinOp;
ghost use Rattle.nm_base.specs.IntType.{width, wrapped};
ghost use Rattle.nm_base.specs.declared.int_type.IntType.TheVariants.{I16, U16};

use nesc_core::{BinOp, UnOp};
use nm_base::{IntType, wrap};

/// The bits of a number of 16 bits.
pub fn word_of(x: i64) -> u16
    ensures { result ≡ numbers.residue 16 x }
{
    x.rem_euclid(65_536) as u16
}

/// The bits of a number of this type.
pub fn bits_of(t: IntType, x: i64) -> u32
    ensures { result ≡ numbers.residue (width t) x }
{
    match t {
        IntType::I8 | IntType::U8 => x.rem_euclid(256) as u32,
        IntType::I16 | IntType::U16 => x.rem_euclid(65_536) as u32,
        IntType::I32 | IntType::U32 => x.rem_euclid(4_294_967_296) as u32,
    }
}

/// The lowest byte of a number.
pub fn low_byte(x: i64) -> u8
    ensures { result ≡ numbers.residue 8 x }
{
    x.rem_euclid(256) as u8
}

/// The number without its lowest byte.
pub fn without_low_byte(x: i64) -> i64
    ensures { result ≡ numbers.floor_div x 256 }
{
    x >> 8
}

fn width_of(t: IntType) -> i64
    ensures { result ≡ pos (width t) }
{
    match t {
        IntType::I8 | IntType::U8 => 8,
        IntType::I16 | IntType::U16 => 16,
        IntType::I32 | IntType::U32 => 32,
    }
}

/// 1 where it holds, else 0.
pub fn truth(holds: bool) -> i64
    ensures { result ≡ numbers.truth holds }
{
    if holds { 1 } else { 0 }
}

/// Whether the number counts as false.
pub fn is_zero(x: i64) -> bool
    ensures { result ≡ numbers.is_zero x }
{
    x == 0
}

// The number whose bits these are.
fn from_bits(t: IntType, bits: u32) -> i64
    ensures { result ≡ wrapped t (pos bits) }
{
    wrap(t, i64::from(bits))
}

fn divided(t: IntType, x: i64, y: i64) -> Option<i64>
    ensures { result ≡ numbers.binary BinOp.Div t x y }
{
    if is_zero(y) {
        return None;
    }
    Some(wrap(t, x.wrapping_div(y)))
}

fn remainder(t: IntType, x: i64, y: i64) -> Option<i64>
    ensures { result ≡ numbers.binary BinOp.Rem t x y }
{
    if is_zero(y) {
        return None;
    }
    Some(wrap(t, x.wrapping_rem(y)))
}

fn shifted_left(t: IntType, x: i64, count: i64) -> i64
    ensures { result ≡ numbers.shift_left t x count }
{
    if count < 0 || count >= width_of(t) {
        return 0;
    }
    shifted_by(t, x, count as u32)
}

fn shifted_by(t: IntType, x: i64, count: u32) -> i64
    requires { count < 32 }
    ensures { result ≡ wrapped t (x *ℤ pos (2 ^ count)) }
{
    wrap(t, x << count)
}

// Where all bits are those of the sign.
fn sign_of(x: i64) -> i64
    ensures { result ≡ numbers.sign x }
{
    if x < 0 { -1 } else { 0 }
}

fn shifted_right(t: IntType, x: i64, count: i64) -> i64
    ensures { result ≡ numbers.shift_right t x count }
{
    if count < 0 || count >= width_of(t) {
        return sign_of(x);
    }
    x >> count
}

/// What an operator on two numbers gives, None where the divisor is 0.
pub fn binary(op: BinOp, t: IntType, x: i64, y: i64) -> Option<i64>
    ensures { result ≡ numbers.binary op t x y }
{
    match op {
        BinOp::Add => Some(wrap(t, x.wrapping_add(y))),
        BinOp::Sub => Some(wrap(t, x.wrapping_sub(y))),
        BinOp::Mul => Some(wrap(t, x.wrapping_mul(y))),
        BinOp::Div => divided(t, x, y),
        BinOp::Rem => remainder(t, x, y),
        BinOp::And => Some(from_bits(t, bits_of(t, x) & bits_of(t, y))),
        BinOp::Or => Some(from_bits(t, bits_of(t, x) | bits_of(t, y))),
        BinOp::Xor => Some(from_bits(t, bits_of(t, x) ^ bits_of(t, y))),
        BinOp::Shl => Some(shifted_left(t, x, y)),
        BinOp::Shr => Some(shifted_right(t, x, y)),
        BinOp::Eq => Some(truth(x == y)),
        BinOp::Ne => Some(truth(x != y)),
        BinOp::Lt => Some(truth(x < y)),
        BinOp::Le => Some(truth(x <= y)),
    }
}

/// What an operator on one number gives.
pub fn unary(op: UnOp, t: IntType, x: i64) -> i64
    ensures { result ≡ numbers.unary op t x }
{
    match op {
        UnOp::Neg => wrap(t, x.wrapping_neg()),
        UnOp::Not => wrap(t, !x),
        UnOp::IsZero => truth(is_zero(x)),
    }
}

/// The address this many parts of this size behind another.
pub fn offset(address: i64, count: i64, size: u32) -> i64
    ensures { result ≡ wrapped U16 (address +ℤ count *ℤ pos size) }
{
    wrap(IntType::U16, address.wrapping_add(bytes_of(count, size)))
}

// Of this many parts.
fn bytes_of(count: i64, size: u32) -> i64
    ensures { result ≡ int_wrap w64 (count *ℤ pos size) }
{
    count.wrapping_mul(i64::from(size))
}

/// How many parts of this size lie between two addresses.
pub fn distance(x: i64, y: i64, size: u32) -> i64
    requires { 0 < size }
    ensures { result ≡ int_div (wrapped I16 (x -ℤ y)) (pos size) }
{
    wrap(IntType::I16, x.wrapping_sub(y)) / i64::from(size)
}
