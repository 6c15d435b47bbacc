//! Which numbers operators take.

ghost use Rattle.std.specs.Prelude.{◌≡◌, true, ◌||◌, ◌&&◌};
ghost use Rattle.nesc_core.specs.Typing as typing;
ghost use Rattle.nesc_core.specs.Typing.{IsConverted, IsOf, IsOperand, IsPort, IsPromoted, IsScalar, IsUpdated};
ghost use Rattle.well_formed.specs.Kinds.{type_of_kind};

use crate::kind::Kind;
use nesc_core::{BinOp, UnOp};
use nm_base::{ENABLE, IntType, PENDING, wrap};

/// Whether the type has this number.
pub(crate) fn is_of(t: IntType, x: i64) -> bool
    ensures { result ≡ true → IsOf t x }
{
    wrap(t, x) == x
}

/// Whether operators compute with numbers of this type.
pub(crate) fn is_promoted(t: IntType) -> bool
    ensures { result ≡ true → IsPromoted t }
{
    match t {
        IntType::I8 | IntType::U8 => false,
        IntType::I16 | IntType::U16 | IntType::I32 | IntType::U32 => true,
    }
}

/// Whether an operator on one number takes this type.
pub(crate) fn is_operand(op: UnOp, t: IntType) -> bool
    ensures { result ≡ true → IsOperand op t }
{
    match op {
        UnOp::Neg => is_promoted(t),
        UnOp::Not => is_promoted(t),
        UnOp::IsZero => true,
    }
}

/// The type of what an operator on one number gives.
pub(crate) fn unary_type(op: UnOp, t: IntType) -> IntType
    ensures { result ≡ typing.unary_type op t }
{
    match op {
        UnOp::Neg | UnOp::Not => t,
        UnOp::IsZero => IntType::I16,
    }
}

/// The type of what an operator on two numbers gives.
pub(crate) fn binary_type(op: BinOp, t: IntType) -> IntType
    ensures { result ≡ typing.binary_type op t }
{
    match op {
        BinOp::Add
        | BinOp::Sub
        | BinOp::Mul
        | BinOp::Div
        | BinOp::Rem
        | BinOp::And
        | BinOp::Or
        | BinOp::Xor
        | BinOp::Shl
        | BinOp::Shr => t,
        BinOp::Eq | BinOp::Ne | BinOp::Lt | BinOp::Le => IntType::I16,
    }
}

/// Whether there are values of the kind.
pub(crate) fn is_value(k: Kind) -> bool
    ensures { result ≡ true → IsScalar (type_of_kind k.entry) }
{
    match k {
        Kind::Void => false,
        Kind::Int(_) | Kind::Pointer(_) => true,
    }
}

/// Whether values of the kind are converted to this type; pointers are to their address alone.
pub(crate) fn is_converted(t: IntType, k: Kind) -> bool
    ensures { result ≡ true → IsConverted t (type_of_kind k.entry) }
{
    match k {
        Kind::Void => false,
        Kind::Int(_) => true,
        Kind::Pointer(_) => t == IntType::U16,
    }
}

/// Whether an update with this operator, which computes at this type, may change a place of the kind.
pub(crate) fn is_updated(op: BinOp, t: IntType, k: Kind) -> bool
    ensures { result ≡ true → IsUpdated op t (type_of_kind k.entry) }
{
    match k {
        Kind::Void => false,
        Kind::Int(_) => updates(op) && is_promoted(t),
        Kind::Pointer(_) => moves(op) && t == IntType::U16,
    }
}

fn updates(op: BinOp) -> bool
    ensures { result ≡ true → typing.Updates op }
{
    match op {
        BinOp::Add
        | BinOp::Sub
        | BinOp::Mul
        | BinOp::Div
        | BinOp::Rem
        | BinOp::And
        | BinOp::Or
        | BinOp::Xor
        | BinOp::Shl
        | BinOp::Shr => true,
        BinOp::Eq | BinOp::Ne | BinOp::Lt | BinOp::Le => false,
    }
}

fn moves(op: BinOp) -> bool
    ensures { result ≡ true → typing.Moves op }
{
    match op {
        BinOp::Add | BinOp::Sub => true,
        BinOp::Mul
        | BinOp::Div
        | BinOp::Rem
        | BinOp::And
        | BinOp::Or
        | BinOp::Xor
        | BinOp::Shl
        | BinOp::Shr
        | BinOp::Eq
        | BinOp::Ne
        | BinOp::Lt
        | BinOp::Le => false,
    }
}

/// Whether the port is one of the interrupt controller or of a device.
pub(crate) fn is_port(port: u16) -> bool
    ensures { result ≡ true → IsPort port }
{
    port == ENABLE || port == PENDING || (0x0120 <= port && port <= 0x015E && port % 2 == 0)
}
