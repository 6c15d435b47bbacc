//! Assignments.

ghost use Rattle.std.specs.Prelude.{◌≡◌, IfOk, map, None, Ok, Some};
ghost use Rattle.nesc_core.specs.View.{expr_of, place_of, type_of};
ghost use Rattle.elab_copies.specs.Freezing as freezing;
ghost use Rattle.elab_copies.specs.Freezing.{frozen_in};
ghost use Rattle.elab_meaning.specs.Answers.{Gives};
ghost use Rattle.elab_meaning.specs.Convert as convert;
ghost use Rattle.elab_meaning.specs.Places as spec;
ghost use Rattle.elab_meaning.specs.View.{found_of, frozen_place_of, state_of, target_of};

use crate::copying::{Copying, copies};
use crate::freezing::frozen;
use elab_meaning::{Found, FrozenPlace, Target, Work};
use elab_operators::as_value;
use elab_places::{assigned, updated};
use elab_values::{bad_type, struct_number};
use nesc_core::{CoreExpr, CoreType, Place};
use nesc_tree::InOp;
use nm_base::{Fault, IntType, NoMemory, Pos};
use std::alloc::Global;
use std::collections::VecDeque;

// A struct from one frozen place to another, behind what is done.
fn copied_between(
    alloc: Global,
    work: &Work,
    c: Copying,
    k: u32,
    done: Vec<CoreExpr>,
    to: FrozenPlace,
    from: &FrozenPlace,
) -> Result<Found, NoMemory>
    ensures { IfOk result (λ f. freezing.copied_between c.at c.at_value k (map expr_of done.items) (frozen_place_of to) (frozen_place_of from.now) (state_of work.now) ≡ Ok (found_of f, state_of work.now)) }
{
    let mut steps = done;
    copies(alloc, work.structs.as_slice(), c, k, &to, from, &mut steps)?;
    Ok(Found::Copy(steps, to, k))
}

// A struct to a frozen place from another place.
fn copied_to(
    alloc: Global,
    work: &mut Work,
    c: Copying,
    k: u32,
    done: Vec<CoreExpr>,
    to: FrozenPlace,
    q: Place,
    indexes: VecDeque<IntType>,
) -> Result<Found, Fault>
    ensures { Gives found_of result (state_of work.new) (freezing.copied_to c.at c.at_value k (frozen_in done.items to) (place_of q) indexes.items (state_of work.old)) }
{
    let mut steps = done;
    let from = frozen(alloc, work, c.at_value, q, indexes, &mut steps)?;
    Ok(copied_between(alloc, work, c, k, steps, to, &from)?)
}

// A struct from a place.
fn place_copied(
    alloc: Global,
    work: &mut Work,
    c: Copying,
    p: Target,
    k: u32,
    q: Place,
    indexes: VecDeque<IntType>,
) -> Result<Found, Fault>
    ensures { Gives found_of result (state_of work.new) (spec.place_copied c.at c.at_value (target_of p) k (place_of q) indexes.items (state_of work.old)) }
{
    let mut steps = Vec::new(alloc);
    let to = frozen(alloc, work, c.at, p.place, p.indexes, &mut steps)?;
    copied_to(alloc, work, c, k, steps, to, q, indexes)
}

// A struct from what another assignment stored to.
fn copy_copied(
    alloc: Global,
    work: &mut Work,
    c: Copying,
    p: Target,
    k: u32,
    done: Vec<CoreExpr>,
    from: &FrozenPlace,
) -> Result<Found, Fault>
    ensures { Gives found_of result (state_of work.new) (spec.copy_copied c.at c.at_value (target_of p) k (map expr_of done.items) (frozen_place_of from.now) (state_of work.old)) }
{
    let mut steps = done;
    let to = frozen(alloc, work, c.at, p.place, p.indexes, &mut steps)?;
    Ok(copied_between(alloc, work, c, k, steps, to, from)?)
}

fn is_struct(k: u32, t: &CoreType) -> bool
    ensures { result ≡ spec.is_number k (convert.struct_number (type_of t.now)) }
{
    match struct_number(t) {
        None => false,
        Some(j) => k == j,
    }
}

// A struct.
fn copied(
    alloc: Global,
    work: &mut Work,
    at: Pos,
    at_value: Pos,
    p: Target,
    k: u32,
    f: Found,
) -> Result<Found, Fault>
    ensures { Gives found_of result (state_of work.new) (spec.copied at at_value (target_of p) k (found_of f) (state_of work.old)) }
{
    match f {
        Found::Place(q, indexes, t, _) => {
            if !is_struct(k, &t) {
                return bad_type(at_value);
            }
            place_copied(alloc, work, Copying { at, at_value }, p, k, q, indexes)
        }
        Found::Copy(steps, q, j) => {
            if k != j {
                return bad_type(at_value);
            }
            copy_copied(alloc, work, Copying { at, at_value }, p, k, steps, &q)
        }
        Found::Value(_) => bad_type(at_value),
    }
}

// A number or a pointer.
fn value_stored(
    alloc: Global,
    work: &mut Work,
    at: Pos,
    at_value: Pos,
    p: Target,
    f: Found,
) -> Result<Found, Fault>
    ensures { Gives found_of result (state_of work.new) (spec.stored_by at at_value (target_of p) (found_of f) None (state_of work.old)) }
{
    let v = as_value(alloc, work, at_value, f)?;
    assigned(alloc, at, at_value, p, v)
}

fn updated_by(
    alloc: Global,
    work: &mut Work,
    o: InOp,
    at: Pos,
    at_value: Pos,
    p: Target,
    f: Found,
) -> Result<Found, Fault>
    ensures { Gives found_of result (state_of work.new) (spec.stored (Some o) at at_value (target_of p) (found_of f) (state_of work.old)) }
{
    let v = as_value(alloc, work, at_value, f)?;
    updated(alloc, work.structs.as_slice(), at, false, o, p, v)
}

/// `=`, or the operator before it.
pub fn stored(
    alloc: Global,
    work: &mut Work,
    o: Option<InOp>,
    at: Pos,
    at_value: Pos,
    p: Target,
    f: Found,
) -> Result<Found, Fault>
    ensures { Gives found_of result (state_of work.new) (spec.stored o at at_value (target_of p) (found_of f) (state_of work.old)) }
{
    match o {
        Some(o) => updated_by(alloc, work, o, at, at_value, p, f),
        None => match struct_number(&p.ty) {
            Some(k) => copied(alloc, work, at, at_value, p, k, f),
            None => value_stored(alloc, work, at, at_value, p, f),
        },
    }
}
