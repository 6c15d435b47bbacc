//! What operations are to give.

ghost use Rattle.std.specs.Prelude.{◌≡◌, true, false};
ghost use Rattle.routine_rows.specs.Wanted as spec;

use core_numbers::{binary, bits_of};
use nesc_core::BinOp;
use nm_base::{IntType, wrap};

/// The bits of what an operation gives on the numbers that have these lowest bits; None where the divisor is 0. The count of a shift
/// is the low half of `y`.
pub fn wanted(op: BinOp, t: IntType, x: u32, y: u32) -> Option<u32>
    ensures { result ≡ spec.wanted op t x y }
{
    match binary(op, t, wrap(t, i64::from(x)), second(op, t, y)) {
        Some(number) => Some(bits_of(t, number)),
        None => None,
    }
}

fn second(op: BinOp, t: IntType, y: u32) -> i64
    ensures { result ≡ spec.second op t y }
{
    if is_shift(op) {
        i64::from(y % 65_536)
    } else {
        wrap(t, i64::from(y))
    }
}

/// Whether an operation is a shift.
pub fn is_shift(op: BinOp) -> bool
    ensures { result ≡ spec.is_shift op }
{
    matches!(op, BinOp::Shl | BinOp::Shr)
}
