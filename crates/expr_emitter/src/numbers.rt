//! How numbers are held, and which numbers operators give.

ghost use Rattle.std.specs.Prelude.{◌≡◌};
ghost use Rattle.lower_expr.specs.Held as held;
ghost use Rattle.mid_code.specs.Help as help;
ghost use Rattle.nesc_core.specs.Typing as typing;

use nesc_core::{BinOp, UnOp};
use nm_base::IntType;

/// Whether a number of the type is held in two values.
pub fn is_wide(t: IntType) -> bool
    ensures { result ≡ help.is_wide t }
{
    matches!(t, IntType::I32 | IntType::U32)
}

pub(crate) fn is_signed(t: IntType) -> bool
    ensures { result ≡ held.is_signed t }
{
    matches!(t, IntType::I8 | IntType::I16 | IntType::I32)
}

/// The low half of a number in two's complement.
pub fn low(x: i64) -> u16
    ensures { result ≡ held.low x }
{
    x.rem_euclid(65_536).unsigned_abs() as u16
}

/// The high half of its 32 bits.
pub fn high(x: i64) -> u16
    ensures { result ≡ held.high x }
{
    (x.rem_euclid(4_294_967_296).unsigned_abs() / 65_536) as u16
}

/// The type of what an operator on one number gives.
pub(crate) fn unary_type(op: UnOp, t: IntType) -> IntType
    ensures { result ≡ typing.unary_type op t }
{
    match op {
        UnOp::Neg | UnOp::Not => t,
        UnOp::IsZero => IntType::I16,
    }
}

/// The type of what an operator on two numbers gives.
pub(crate) fn binary_type(op: BinOp, t: IntType) -> IntType
    ensures { result ≡ typing.binary_type op t }
{
    match op {
        BinOp::Eq | BinOp::Ne | BinOp::Lt | BinOp::Le => IntType::I16,
        BinOp::Add
        | BinOp::Sub
        | BinOp::Mul
        | BinOp::Div
        | BinOp::Rem
        | BinOp::And
        | BinOp::Or
        | BinOp::Xor
        | BinOp::Shl
        | BinOp::Shr => t,
    }
}
