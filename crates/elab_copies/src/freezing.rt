//! Places that are evaluated once: each index and each pointer goes to a fresh local.

ghost use Rattle.std.specs.Prelude.{◌≡◌, map};
ghost use Rattle.nesc_core.specs.View.{expr_of, place_of, type_of};
ghost use Rattle.elab_copies.specs.Freezing.{frozen_in, kept_in};
ghost use Rattle.elab_meaning.specs.Answers.{Gives};
ghost use Rattle.elab_meaning.specs.Places as spec;
ghost use Rattle.elab_meaning.specs.View.{state_of};

use crate::places::{begun, behind_step};
use elab_meaning::{FrozenPlace, Start, Step, Work};
use elab_values::{bad_type, copied};
use nesc_core::{CoreExpr, CoreType, Place};
use nm_base::{Fault, IntType, Pos};
use std::alloc::Global;
use std::collections::VecDeque;

// A value goes to a fresh local.
fn kept(
    alloc: Global,
    work: &mut Work,
    at: Pos,
    t: CoreType,
    e: CoreExpr,
    done: &mut Vec<CoreExpr>,
) -> Result<u32, Fault>
    ensures { Gives (kept_in done.new.items) result (state_of work.new) (spec.kept at (type_of t) (expr_of e) (map expr_of done.old.items) (state_of work.old)) }
{
    let local = work.fresh(t)?;
    let store = CoreExpr::Assign(Place::Local(local), Box::new(alloc, e)?, at);
    done.push(store)?;
    Ok(local)
}

// What is behind a pointer, which goes to a local.
fn frozen_behind(
    alloc: Global,
    work: &mut Work,
    at: Pos,
    e: CoreExpr,
    t: CoreType,
    done: &mut Vec<CoreExpr>,
) -> Result<FrozenPlace, Fault>
    ensures { Gives (frozen_in done.new.items) result (state_of work.new) (spec.frozen_behind at (expr_of e) (type_of t) (map expr_of done.old.items) (state_of work.old)) }
{
    let pointer = CoreType::Pointer(Box::new(alloc, copied(alloc, &t)?)?);
    let x = kept(alloc, work, at, pointer, e, done)?;
    Ok(begun(alloc, Start::Behind(x, at, t)))
}

// An element whose index goes to a local.
fn frozen_element(
    alloc: Global,
    work: &mut Work,
    at: Pos,
    p: FrozenPlace,
    t: IntType,
    e: CoreExpr,
    done: &mut Vec<CoreExpr>,
) -> Result<FrozenPlace, Fault>
    ensures { Gives (frozen_in done.new.items) result (state_of work.new) (spec.frozen_element at (frozen_in done.old.items p) t (expr_of e) (state_of work.old)) }
{
    let x = kept(alloc, work, at, CoreType::Int(t), e, done)?;
    Ok(behind_step(p, Step::Kept(x, at))?)
}

/// The place, frozen, behind what is done.
pub fn frozen(
    alloc: Global,
    work: &mut Work,
    at: Pos,
    p: Place,
    indexes: VecDeque<IntType>,
    done: &mut Vec<CoreExpr>,
) -> Result<FrozenPlace, Fault>
    ensures { Gives (frozen_in done.new.items) result (state_of work.new) (spec.frozen at (place_of p) indexes.items (map expr_of done.old.items) (state_of work.old)) }
{
    match p {
        Place::Object(k) => Ok(begun(alloc, Start::Object(k))),
        Place::Local(x) => Ok(begun(alloc, Start::Local(x))),
        Place::Deref(e, t) => frozen_behind(alloc, work, at, Box::into_inner(e), t, done),
        Place::Index(base, e) => {
            let mut types = indexes;
            let Some(t) = types.pop_front() else {
                return bad_type(at);
            };
            let f = frozen(alloc, work, at, Box::into_inner(base), types, done)?;
            frozen_element(alloc, work, at, f, t, Box::into_inner(e), done)
        }
        Place::Field(base, k) => {
            let f = frozen(alloc, work, at, Box::into_inner(base), indexes, done)?;
            Ok(behind_step(f, Step::Field(k))?)
        }
    }
}
