//! Whether moves are a run, and what they show.

ghost use Rattle.std.specs.Prelude.{◌≡◌, ◌<◌, ◌+◌, ◌^◌, ◌++◌, IfErr, IfOk, OnOk, length};
ghost use Rattle.nesc_core.specs.View.{program_of};
ghost use Rattle.nesc_core.specs.WellFormed.{IsWellFormed};
ghost use Rattle.core_meaning.specs.SourceOf.{source_of};
ghost use Rattle.run_meaning.specs.Runs as meaning;
ghost use Rattle.run_meaning.specs.State as runs;
ghost use Rattle.run_checker.specs.Checking.{IsNoMove, IsTaken, IsWhy};
ghost use Rattle.run_checker.specs.States.{AreKnown, state_of};
ghost use Rattle.run_checker.specs.declared.run_fault.RunFault.TheVariants as fault;

use crate::legal::is_legal;
use crate::moving::{go, shown};
use crate::run_fault::RunFault;
use crate::state::{RunState, start};
use mote_devices::{BoardState, Shown};
use nesc_core::Program;
use nm_base::NoMemory;
use run_meaning::Move;
use std::alloc::Global;

/// What these moves of a program show from this board, where they are a run of it; else the first of them that is not legal
/// after those before it.
///
/// What a body does is computed anew for each answer that it gets, in time linear in what it did so far.
pub fn check_run(
    alloc: Global,
    p: &Program,
    board: &BoardState,
    moves: &[Move],
) -> Result<Vec<Shown>, RunFault>
    requires formed { IsWellFormed (program_of p.now) }
    requires few { length moves.now < 2 ^ 32 }
    ensures run { IfOk result (λ _. meaning.IsRun (source_of (program_of p.now)) board.now moves.now) }
    ensures shown { IfOk result (λ events. events.items ≡ meaning.shown_by (source_of (program_of p.now)) (runs.start (source_of (program_of p.now)) board.now) moves.now) }
    ensures refused { IfErr result (λ e. IsWhy (program_of p.now) board.now moves.now e) }
{
    let turns = moves.len() as u32;
    let mut r = started(alloc, p, board, turns)?;
    let mut events = Vec::new(alloc);
    for k in 0..turns {
        take(alloc, p, turns, k, &mut r, moves[k as usize], &mut events)?;
    }
    Ok(events)
}

fn started(alloc: Global, p: &Program, board: &BoardState, turns: u32) -> Result<RunState, RunFault>
    requires { IsWellFormed (program_of p.now) }
    ensures state { IfOk result (λ r. state_of r ≡ runs.start (source_of (program_of p.now)) board.now) }
    ensures known { IfOk result (λ r. AreKnown (program_of p.now) turns 0 r) }
    ensures refused { IfErr result (λ e. e ≡ fault.NoMemory) }
{
    match start(alloc, p, board, turns) {
        Ok(r) => Ok(r),
        Err(NoMemory) => Err(RunFault::NoMemory),
    }
}

// Shows and does a legal move.
fn move_on(
    alloc: Global,
    p: &Program,
    turns: u32,
    k: u32,
    r: &mut RunState,
    m: Move,
    events: &mut Vec<Shown>,
) -> Result<(), NoMemory>
    requires formed { IsWellFormed (program_of p.now) }
    requires known { AreKnown (program_of p.now) turns k r.old }
    requires few { k < turns }
    requires legal { meaning.LegalThere (source_of (program_of p.now)) (state_of r.old) m }
    ensures shown { OnOk result (events.new.items ≡ events.old.items ++ meaning.shown_of (state_of r.old) m) }
    ensures state { OnOk result (state_of r.new ≡ meaning.after (source_of (program_of p.now)) (state_of r.old) m) }
    ensures known { OnOk result (AreKnown (program_of p.now) turns (k + 1) r.new) }
{
    if let Some(event) = shown(r, m) {
        events.push(event)?;
    }
    go(alloc, p, turns, k, r, m)
}

// Shows and does a move, where it is legal.
fn take(
    alloc: Global,
    p: &Program,
    turns: u32,
    k: u32,
    r: &mut RunState,
    m: Move,
    events: &mut Vec<Shown>,
) -> Result<(), RunFault>
    requires formed { IsWellFormed (program_of p.now) }
    requires known { AreKnown (program_of p.now) turns k r.old }
    requires few { k < turns }
    ensures taken { OnOk result (IsTaken (source_of (program_of p.now)) m (state_of r.old) (state_of r.new) events.old.items events.new.items) }
    ensures known { OnOk result (AreKnown (program_of p.now) turns (k + 1) r.new) }
    ensures refused { IfErr result (λ e. IsNoMove (source_of (program_of p.now)) (state_of r.old) m k e) }
{
    if !is_legal(p, turns, k, r, m) {
        return Err(RunFault::BadMove(k));
    }
    match move_on(alloc, p, turns, k, r, m, events) {
        Ok(()) => Ok(()),
        Err(NoMemory) => Err(RunFault::NoMemory),
    }
}
