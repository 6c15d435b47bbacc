//! Frozen places.

ghost use Rattle.std.specs.Prelude.{◌≡◌, IfOk};
ghost use Rattle.nesc_core.specs.Plain as core;
ghost use Rattle.nesc_core.specs.View.{expr_of, place_of};
ghost use Rattle.elab_meaning.specs.View.{frozen_place_of, start_of, step_from};

use elab_meaning::{FrozenPlace, Start, Step};
use elab_operators::MAX_LEVELS;
use elab_values::copied;
use nesc_core::{CoreExpr, Place};
use nm_base::{IntType, NoMemory, Pos};
use std::alloc::Global;

/// A place without steps.
pub fn begun(alloc: Global, start: Start) -> FrozenPlace
    ensures { frozen_place_of result ≡ start_of start }
{
    FrozenPlace {
        start,
        steps: Vec::new(alloc),
    }
}

/// The place behind one step more.
#[tactic(auto, using(crate::proofs::Folds::folds))]
pub fn behind_step(p: FrozenPlace, step: Step) -> Result<FrozenPlace, NoMemory>
    ensures { IfOk result (λ r. frozen_place_of r ≡ step_from (frozen_place_of p) step) }
{
    let mut steps = p.steps;
    steps.push(step)?;
    Ok(FrozenPlace {
        start: p.start,
        steps,
    })
}

fn copied_start(alloc: Global, start: &Start) -> Result<Start, NoMemory>
    ensures { IfOk result (λ r. start_of r ≡ start_of start.now) }
{
    match start {
        Start::Object(k) => Ok(Start::Object(*k)),
        Start::Local(x) => Ok(Start::Local(*x)),
        Start::Behind(x, at, t) => Ok(Start::Behind(*x, *at, copied(alloc, t)?)),
    }
}

/// A copy of a place.
pub fn copied_place(alloc: Global, p: &FrozenPlace) -> Result<FrozenPlace, NoMemory>
    ensures { IfOk result (λ r. frozen_place_of r ≡ frozen_place_of p.now) }
{
    let steps = p.steps.clone()?;
    Ok(FrozenPlace {
        start: copied_start(alloc, &p.start)?,
        steps,
    })
}

/// A part of a place; one of more steps than `MAX_LEVELS` is answered by want of memory.
pub fn part_of(alloc: Global, p: &FrozenPlace, step: Step) -> Result<FrozenPlace, NoMemory>
    ensures { IfOk result (λ r. frozen_place_of r ≡ step_from (frozen_place_of p.now) step) }
{
    if p.steps.len() >= MAX_LEVELS as usize {
        return Err(NoMemory);
    }
    behind_step(copied_place(alloc, p)?, step)
}

// ---- as places of the core

fn read_local(x: u32, at: Pos) -> CoreExpr
    ensures { expr_of result ≡ core.read (core.local x) at }
{
    CoreExpr::Read(Place::Local(x), at)
}

fn start_place(alloc: Global, start: &Start) -> Result<Place, NoMemory>
    ensures { IfOk result (λ r. place_of r ≡ start_of start.now) }
{
    match start {
        Start::Object(k) => Ok(Place::Object(*k)),
        Start::Local(x) => Ok(Place::Local(*x)),
        Start::Behind(x, at, t) => Ok(Place::Deref(
            Box::new(alloc, read_local(*x, *at))?,
            copied(alloc, t)?,
        )),
    }
}

fn step_place(alloc: Global, p: Place, step: Step) -> Result<Place, NoMemory>
    ensures { IfOk result (λ r. place_of r ≡ step_from (place_of p) step) }
{
    match step {
        Step::Kept(x, at) => Ok(Place::Index(
            Box::new(alloc, p)?,
            Box::new(alloc, read_local(x, at))?,
        )),
        Step::Element(i) => Ok(Place::Index(
            Box::new(alloc, p)?,
            Box::new(alloc, CoreExpr::Const(IntType::I16, i64::from(i)))?,
        )),
        Step::Field(k) => Ok(Place::Field(Box::new(alloc, p)?, k)),
    }
}

/// The place as one of the core.
#[tactic(auto, using(crate::proofs::Folds::folds))]
pub fn whole_place(alloc: Global, p: &FrozenPlace) -> Result<Place, NoMemory>
    ensures { IfOk result (λ r. place_of r ≡ frozen_place_of p.now) }
{
    let mut place = start_place(alloc, &p.start)?;
    for step in p.steps.as_slice() {
        place = step_place(alloc, place, *step)?;
    }
    Ok(place)
}
