//! Whether a move is legal.

ghost use Rattle.std.specs.Prelude.{◌≡◌, ◌<◌, Some, IsNone, IsSomeAnd, false, is_none};
ghost use Rattle.std.specs.Option.{option_map};
ghost use Rattle.nesc_core.specs.View.{program_of};
ghost use Rattle.mote_devices.specs.Board.{line_of};
ghost use Rattle.core_meaning.specs.SourceOf.{source_of};
ghost use Rattle.run_meaning.specs.Runs as moves;
ghost use Rattle.run_meaning.specs.State as runs;
ghost use Rattle.run_checker.specs.Contexts.{IsMaybeKnown, context_of};
ghost use Rattle.run_checker.specs.States.{AreKnown, state_of};
ghost use Rattle.run_checker.specs.Tells.{Tells};

use crate::board::line;
use crate::context::{Progress, has_ended, is_next};
use crate::state::RunState;
use nesc_core::Program;
use nm_base::Action;
use run_meaning::Move;
use std::collections::VecDeque;

fn can_do(p: &Program, turns: u32, k: u32, c: &Option<Progress>, a: Action) -> bool
    requires known { IsMaybeKnown (program_of p.now) turns k c.now }
    requires few { k < turns }
    ensures { Tells result (IsSomeAnd (option_map context_of c.now) (moves.CanDo (source_of (program_of p.now)) a)) }
{
    match c {
        Some(c) => is_next(c, a),
        None => false,
    }
}

fn may_leave(p: &Program, turns: u32, k: u32, c: &Option<Progress>) -> bool
    requires known { IsMaybeKnown (program_of p.now) turns k c.now }
    requires few { k < turns }
    ensures { Tells result (IsSomeAnd (option_map context_of c.now) (moves.HasEnded (source_of (program_of p.now)))) }
{
    match c {
        Some(c) => has_ended(c),
        None => false,
    }
}

fn is_inside(p: &Program, turns: u32, k: u32, c: &Option<Progress>) -> bool
    requires known { IsMaybeKnown (program_of p.now) turns k c.now }
    ensures { result ≡ runs.is_inside (option_map context_of c.now) }
{
    match c {
        Some(c) => c.ends < c.begins,
        None => false,
    }
}

fn is_first(tasks: &VecDeque<u32>, k: u32) -> bool
    ensures { Tells result (moves.IsFirst tasks.now.items k) }
{
    match tasks.front() {
        Some(task) => *task == k,
        None => false,
    }
}

fn may_act(p: &Program, turns: u32, k: u32, r: &RunState, a: Action) -> bool
    requires known { AreKnown (program_of p.now) turns k r.now }
    requires few { k < turns }
    ensures { Tells result (IsSomeAnd (runs.acting (state_of r.now)) (moves.CanDo (source_of (program_of p.now)) a)) }
{
    if r.handler.is_some() {
        can_do(p, turns, k, &r.handler, a)
    } else {
        can_do(p, turns, k, &r.base, a)
    }
}

fn may_enter(p: &Program, turns: u32, k: u32, r: &RunState, v: u8) -> bool
    requires known { AreKnown (program_of p.now) turns k r.now }
    ensures { Tells result ((line_of r.now.board ≡ Some v) × IsNone r.now.handler × (runs.is_inside (option_map context_of r.now.base) ≡ false)) }
{
    line(&r.board) == Some(v) && r.handler.is_none() && !is_inside(p, turns, k, &r.base)
}

fn may_start(r: &RunState, k: u32) -> bool
    ensures { Tells result (IsNone r.now.base × IsNone r.now.handler × moves.IsFirst r.now.tasks.items k) }
{
    r.base.is_none() && r.handler.is_none() && is_first(&r.tasks, k)
}

fn may_finish(p: &Program, turns: u32, k: u32, r: &RunState) -> bool
    requires known { AreKnown (program_of p.now) turns k r.now }
    requires few { k < turns }
    ensures { Tells result (IsNone r.now.handler × IsSomeAnd (option_map context_of r.now.base) (moves.HasEnded (source_of (program_of p.now)))) }
{
    r.handler.is_none() && may_leave(p, turns, k, &r.base)
}

fn is_legal_there(p: &Program, turns: u32, k: u32, r: &RunState, m: Move) -> bool
    requires known { AreKnown (program_of p.now) turns k r.now }
    requires few { k < turns }
    ensures { Tells result (moves.LegalThere (source_of (program_of p.now)) (state_of r.now) m) }
{
    match m {
        Move::Arrive(_) => true,
        Move::Do(a) => may_act(p, turns, k, r, a),
        Move::Enter(v) => may_enter(p, turns, k, r, v),
        Move::Leave => may_leave(p, turns, k, &r.handler),
        Move::Start(task) => may_start(r, task),
        Move::Finish => may_finish(p, turns, k, r),
    }
}

/// Whether a move is legal next.
pub(crate) fn is_legal(p: &Program, turns: u32, k: u32, r: &RunState, m: Move) -> bool
    requires known { AreKnown (program_of p.now) turns k r.now }
    requires few { k < turns }
    ensures { Tells result (moves.Legal (source_of (program_of p.now)) (state_of r.now) m) }
{
    !r.stopped && is_legal_there(p, turns, k, r, m)
}
