//! The operators between two values.

ghost use Rattle.std.specs.Prelude.{◌≡◌};
ghost use Rattle.elab_meaning.specs.Answers.{Gives};
ghost use Rattle.elab_meaning.specs.Places as spec;
ghost use Rattle.elab_meaning.specs.View.{found_of, state_of, typed_of};

use crate::additions::added;
use crate::comparisons::{compared, exchanged};
use crate::numbers::{arithmetic, shifted};
use crate::pointers::subtracted;
use elab_meaning::{Found, Typed, Work};
use elab_values::{both, either};
use nesc_core::BinOp;
use nesc_tree::InOp;
use nm_base::{Fault, Pos};
use std::alloc::Global;

/// An operator between two values, of which the first is evaluated first.
pub fn binary(
    alloc: Global,
    work: &mut Work,
    o: InOp,
    at: Pos,
    x: Typed,
    y: Typed,
) -> Result<Found, Fault>
    ensures { Gives found_of result (state_of work.new) (spec.binary o at (typed_of x) (typed_of y) (state_of work.old)) }
{
    let a = x.expr;
    let t = x.ty;
    let b = y.expr;
    let u = y.ty;
    match o {
        InOp::Mul => arithmetic(alloc, BinOp::Mul, at, &t, &u, a, b),
        InOp::Div => arithmetic(alloc, BinOp::Div, at, &t, &u, a, b),
        InOp::Rem => arithmetic(alloc, BinOp::Rem, at, &t, &u, a, b),
        InOp::Add => added(alloc, work, at, &t, &u, a, b),
        InOp::Sub => subtracted(alloc, work.structs.as_slice(), at, &t, &u, a, b),
        InOp::Shl => shifted(alloc, BinOp::Shl, at, &t, &u, a, b),
        InOp::Shr => shifted(alloc, BinOp::Shr, at, &t, &u, a, b),
        InOp::Lt => compared(alloc, BinOp::Lt, at, &t, &u, a, b),
        InOp::Gt => exchanged(alloc, work, BinOp::Lt, at, &t, &u, a, b),
        InOp::Le => compared(alloc, BinOp::Le, at, &t, &u, a, b),
        InOp::Ge => exchanged(alloc, work, BinOp::Le, at, &t, &u, a, b),
        InOp::Eq => compared(alloc, BinOp::Eq, at, &t, &u, a, b),
        InOp::Ne => compared(alloc, BinOp::Ne, at, &t, &u, a, b),
        InOp::And => arithmetic(alloc, BinOp::And, at, &t, &u, a, b),
        InOp::Xor => arithmetic(alloc, BinOp::Xor, at, &t, &u, a, b),
        InOp::Or => arithmetic(alloc, BinOp::Or, at, &t, &u, a, b),
        InOp::AndAnd => both(
            alloc,
            at,
            Typed { expr: a, ty: t },
            Typed { expr: b, ty: u },
        ),
        InOp::OrOr => either(
            alloc,
            at,
            Typed { expr: a, ty: t },
            Typed { expr: b, ty: u },
        ),
    }
}
