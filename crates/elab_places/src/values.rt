//! What has elements, and operators before a value or a place.

ghost use Rattle.std.specs.Prelude.{◌≡◌};
ghost use Rattle.nesc_core.specs.View.{place_of, type_of};
ghost use Rattle.elab_meaning.specs.Answers.{Follows, Gives};
ghost use Rattle.elab_meaning.specs.Operators as operators;
ghost use Rattle.elab_meaning.specs.Places as spec;
ghost use Rattle.elab_meaning.specs.View.{found_of, state_of, typed_of};

use crate::assignments::{decremented, incremented};
use crate::places::{dereferenced, read_at};
use elab_meaning::{Found, Typed, Work};
use elab_values::{assignable, bad_type, complement, is_zero, minus, plus};
use nesc_core::{CoreType, Place};
use nesc_tree::PreOp;
use nm_base::{Fault, IntType, Pos};
use std::alloc::Global;
use std::collections::VecDeque;

// An array stays a place, all else is a value.
fn indexed_by(
    alloc: Global,
    work: &mut Work,
    at: Pos,
    p: Place,
    indexes: VecDeque<IntType>,
    t: CoreType,
    is_const: bool,
) -> Result<Found, Fault>
    ensures { Gives found_of result (state_of work.new) (spec.indexed_by at (place_of p) indexes.items (type_of t) is_const (state_of work.old)) }
{
    match t {
        CoreType::Array(part, n) => Ok(Found::Place(
            p,
            indexes,
            CoreType::Array(part, n),
            is_const,
        )),
        CoreType::Int(_) | CoreType::Pointer(_) | CoreType::Void | CoreType::Struct(_) => {
            let v = read_at(alloc, work, at, p, t)?;
            Ok(Found::Value(v))
        }
    }
}

/// What has elements.
pub fn indexed(alloc: Global, work: &mut Work, at: Pos, f: Found) -> Result<Found, Fault>
    ensures { Gives found_of result (state_of work.new) (spec.indexed at (found_of f) (state_of work.old)) }
{
    match f {
        Found::Place(p, indexes, t, is_const) => indexed_by(
            alloc, work, at, p, indexes, t, is_const,
        ),
        Found::Value(v) => Ok(Found::Value(v)),
        Found::Copy(_, _, _) => bad_type(at),
    }
}

/// `*`, `+`, `-`, `~` or `!` before a value.
pub fn on_value(alloc: Global, work: &Work, o: PreOp, at: Pos, v: Typed) -> Result<Found, Fault>
    ensures { Follows found_of result (spec.on_value (state_of work.now).structs o at (typed_of v)) }
{
    match o {
        PreOp::Deref => dereferenced(alloc, work.structs.as_slice(), at, v),
        PreOp::Plus => plus(alloc, at, v),
        PreOp::Neg => minus(alloc, at, v),
        PreOp::Not => complement(alloc, at, v),
        PreOp::IsZero => is_zero(alloc, at, v),
        PreOp::Addr | PreOp::Inc | PreOp::Dec => bad_type(at),
    }
}

/// `++` before a place, which gives the new value.
pub fn incremented_place(alloc: Global, work: &Work, at: Pos, f: Found) -> Result<Found, Fault>
    ensures { Follows found_of result (operators.incremented_place (state_of work.now).structs at (found_of f)) }
{
    let p = assignable(at, f)?;
    incremented(alloc, work.structs.as_slice(), at, false, p)
}

/// `--` before a place, which gives the new value.
pub fn decremented_place(alloc: Global, work: &Work, at: Pos, f: Found) -> Result<Found, Fault>
    ensures { Follows found_of result (operators.decremented_place (state_of work.now).structs at (found_of f)) }
{
    let p = assignable(at, f)?;
    decremented(alloc, work.structs.as_slice(), at, false, p)
}
