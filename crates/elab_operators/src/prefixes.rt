//! What is found as a value, and operators before an operand.

ghost use Rattle.std.specs.Prelude.{◌≡◌, IfOk, fold, map};
ghost use Rattle.nesc_core.specs.Plain as core;
ghost use Rattle.nesc_core.specs.View.{expr_of};
ghost use Rattle.elab_meaning.specs.Answers.{Gives};
ghost use Rattle.elab_meaning.specs.Places as spec;
ghost use Rattle.elab_meaning.specs.View.{found_of, state_of, typed_of};

use crate::comparisons::in_turn;
use elab_meaning::{Found, Typed, Work};
use elab_places::{addressed, decremented_place, incremented_place, on_value, read_at};
use nesc_core::{CoreExpr, CoreType, expr_levels};
use nesc_tree::PreOp;
use nm_base::{Fault, IntType, NoMemory, Pos};
use std::alloc::Global;

/// The most levels of parts that are joined. No frame has room for as many, so a body with more is no part of a program; its tree
/// would be let go by calls as deep as its levels, for which the native stack need not have room.
pub const MAX_LEVELS: u32 = 3_000;

// The levels of the parts when they are joined; each stands behind those before it.
fn joined_levels(steps: &[CoreExpr]) -> u32 {
    let mut levels: u32 = 0;
    for step in steps {
        levels = levels
            .max(expr_levels(step).saturating_add(1))
            .saturating_add(1);
    }
    levels
}

// Parts that come one after the other.
fn joined_behind(
    alloc: Global,
    first: CoreExpr,
    others: Vec<CoreExpr>,
) -> Result<CoreExpr, NoMemory>
    ensures { IfOk result (λ r. expr_of r ≡ fold core.comma (expr_of first) (map expr_of others.items)) }
{
    let mut whole = first;
    for step in others {
        whole = in_turn(alloc, whole, step)?;
    }
    Ok(whole)
}

// No part is 0; parts of more levels than `MAX_LEVELS` are answered by want of memory.
fn all_joined(alloc: Global, steps: Vec<CoreExpr>) -> Result<CoreExpr, NoMemory>
    ensures { IfOk result (λ r. expr_of r ≡ spec.joined (map expr_of steps.items)) }
{
    if joined_levels(steps.as_slice()) > MAX_LEVELS {
        return Err(NoMemory);
    }
    let mut others = steps;
    if others.as_slice().is_empty() {
        return Ok(CoreExpr::Const(IntType::I16, 0));
    }
    let first = others.remove(0);
    joined_behind(alloc, first, others)
}

/// What is found, as a value.
pub fn as_value(alloc: Global, work: &mut Work, at: Pos, f: Found) -> Result<Typed, Fault>
    ensures { Gives typed_of result (state_of work.new) (spec.as_value at (found_of f) (state_of work.old)) }
{
    match f {
        Found::Place(p, _, t, _) => read_at(alloc, work, at, p, t),
        Found::Value(v) => Ok(v),
        Found::Copy(steps, _, k) => Ok(Typed {
            expr: all_joined(alloc, steps)?,
            ty: CoreType::Struct(k),
        }),
    }
}

fn valued_operand(
    alloc: Global,
    work: &mut Work,
    o: PreOp,
    at: Pos,
    at_operand: Pos,
    f: Found,
) -> Result<Found, Fault>
    ensures { Gives found_of result (state_of work.new) (spec.valued_operand o at at_operand (found_of f) (state_of work.old)) }
{
    let v = as_value(alloc, work, at_operand, f)?;
    on_value(alloc, work, o, at, v)
}

/// An operator before an operand: `&`, `++` and `--` want a place, the others a value.
pub fn prefixed(
    alloc: Global,
    work: &mut Work,
    o: PreOp,
    at: Pos,
    at_operand: Pos,
    f: Found,
) -> Result<Found, Fault>
    ensures { Gives found_of result (state_of work.new) (spec.prefixed o at at_operand (found_of f) (state_of work.old)) }
{
    match o {
        PreOp::Addr => addressed(alloc, work, at, f),
        PreOp::Inc => incremented_place(alloc, work, at, f),
        PreOp::Dec => decremented_place(alloc, work, at, f),
        PreOp::Deref | PreOp::Plus | PreOp::Neg | PreOp::Not | PreOp::IsZero => valued_operand(
            alloc, work, o, at, at_operand, f,
        ),
    }
}
