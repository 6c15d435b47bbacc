//! Whether a run of the program shows what the image showed.

ghost use Rattle.nesc_core.specs.View.{program_of};
ghost use Rattle.nesc_core.specs.WellFormed.{IsWellFormed};

use crate::calls::BOARD;
use crate::mote_trace::MoteTrace;
use crate::replay::Replay;
use mote_devices::Shown;
use nesc_core::Program;
use nm_base::NoMemory;
use run_checker::{RunFault, check_run};
use run_meaning::Move;
use std::alloc::Global;

/// How many moves later a handler is tried to enter than it could.
const DELAYS: u32 = 8;

/// A run shows the events of the trace; or the first place at which it shows another one, with both events; or the move that is not
/// legal.
#[derive(Clone, Copy)]
pub enum Verdict {
    Same,
    Differs(usize, Option<Shown>, Option<Shown>),
    BadMove(u32),
}

fn difference(traced: &[Shown], shown: &[Shown]) -> Verdict {
    for place in 0..traced.len().max(shown.len()) {
        let in_trace = traced.get(place).copied();
        let in_run = shown.get(place).copied();
        if in_trace != in_run {
            return Verdict::Differs(place, in_trace, in_run);
        }
    }
    Verdict::Same
}

// The moves of a run that follows the trace as far as it can.
fn moves_of(
    alloc: Global,
    program: &Program,
    trace: &MoteTrace,
    delay: u32,
) -> Result<Vec<Move>, NoMemory>
    requires { IsWellFormed (program_of program.now) }
{
    let mut replay = Replay::new(alloc, program)?;
    for event in &trace.events {
        if !replay.follow(alloc, program, *event, delay)? {
            return Ok(replay.moves);
        }
    }
    if trace.is_asleep {
        replay.finish(alloc, program)?;
    }
    Ok(replay.moves)
}

// What the checker of runs says of these moves.
fn checked(
    alloc: Global,
    program: &Program,
    moves: &[Move],
    traced: &[Shown],
) -> Result<Verdict, NoMemory>
    requires { IsWellFormed (program_of program.now) }
{
    if moves.len() > u32::MAX as usize {
        return Err(NoMemory);
    }
    match check_run(alloc, program, &BOARD, moves) {
        Ok(shown) => Ok(difference(traced, &shown)),
        Err(RunFault::BadMove(place)) => Ok(Verdict::BadMove(place)),
        Err(RunFault::NoMemory) => Err(NoMemory),
    }
}

fn tried(
    alloc: Global,
    program: &Program,
    trace: &MoteTrace,
    delay: u32,
) -> Result<Verdict, NoMemory>
    requires { IsWellFormed (program_of program.now) }
{
    let moves = moves_of(alloc, program, trace, delay)?;
    checked(alloc, program, &moves, &trace.events)
}

/// The verdict on a trace. Each handler enters as soon as the trace lets it; where that shows something else, all are tried some
/// moves later.
pub fn verdict_on(alloc: Global, program: &Program, trace: &MoteTrace) -> Result<Verdict, NoMemory>
    requires { IsWellFormed (program_of program.now) }
{
    let first = tried(alloc, program, trace, 0)?;
    let mut last = first;
    for delay in 1..DELAYS {
        if let Verdict::Same = last {
            return Ok(last);
        }
        last = tried(alloc, program, trace, delay)?;
    }
    match last {
        Verdict::Same => Ok(last),
        _ => Ok(first),
    }
}
