//! What a legal move does and shows.

ghost use Rattle.std.specs.Prelude.{◌≡◌, ◌<◌, ◌+◌, IfOk, IsSomeAnd, OnOk, length, option_to_list};
ghost use Rattle.std.specs.Option.{option_map};
ghost use Rattle.nesc_core.specs.View.{program_of};
ghost use Rattle.nesc_core.specs.WellFormed.{IsWellFormed};
ghost use Rattle.core_meaning.specs.SourceOf.{source_of};
ghost use Rattle.run_meaning.specs.Runs as moves;
ghost use Rattle.run_meaning.specs.State.{acting};
ghost use Rattle.run_meaning.specs.declared.Move.TheVariants.{Do, Enter, Start};
ghost use Rattle.run_checker.specs.Contexts.{IsMaybeKnown, context_of};
ghost use Rattle.run_checker.specs.States.{AreKnown, IsEffect, posted, state_of};

use crate::board::{acknowledged, given, port_answer, port_read, port_written};
use crate::context::{Progress, begun, push};
use crate::state::{RunState, handler_of, is_waiting, loaded, put};
use mote_devices::Shown;
use nesc_core::Program;
use nm_base::{Action, NoMemory};
use run_meaning::Move;
use std::alloc::Global;
use std::collections::VecDeque;

// How an action is answered.
fn answer(r: &RunState, a: Action) -> Option<u16>
    ensures { option_to_list result ≡ moves.answers_to (state_of r.now) a }
{
    match a {
        Action::Load(address, is_word) => Some(loaded(&r.store, address, is_word)),
        Action::In(port) => Some(port_answer(&r.board, port)),
        Action::Post(k) => Some(if is_waiting(&r.tasks, k) { 5 } else { 0 }),
        Action::Store(..)
        | Action::Out(..)
        | Action::Begin
        | Action::End
        | Action::Tick
        | Action::Fault(_) => None,
    }
}

/// What a move shows.
pub(crate) fn shown(r: &RunState, m: Move) -> Option<Shown>
    ensures { option_to_list result ≡ moves.shown_of (state_of r.now) m }
{
    match m {
        Move::Arrive(g) => Some(Shown::Given(g)),
        Move::Do(Action::In(port)) => Some(Shown::In(port, port_answer(&r.board, port))),
        Move::Do(Action::Out(port, word)) => Some(Shown::Out(port, word)),
        Move::Do(Action::Fault(code)) => Some(Shown::Fault(u16::from(code))),
        Move::Enter(v) => Some(Shown::Enter(v)),
        Move::Do(_) | Move::Leave | Move::Start(_) | Move::Finish => None,
    }
}

// What an action does to all but the contexts.
fn effect(r: &mut RunState, a: Action) -> Result<(), NoMemory>
    requires { length r.old.store.items ≡ 65537 }
    ensures { OnOk result (IsEffect a r.old r.new) }
{
    match a {
        Action::Store(address, is_word, word) => put(&mut r.store, address, is_word, word),
        Action::In(port) => r.board = port_read(&r.board, port),
        Action::Out(port, word) => r.board = port_written(&r.board, port, word),
        Action::Post(k) => post(&mut r.tasks, k)?,
        Action::Fault(_) => r.stopped = true,
        Action::Load(..) | Action::Begin | Action::End | Action::Tick => {}
    }
    Ok(())
}

// A task that does not wait goes last.
fn post(tasks: &mut VecDeque<u32>, k: u32) -> Result<(), NoMemory>
    ensures { OnOk result (tasks.new.items ≡ posted tasks.old.items k) }
{
    if !is_waiting(tasks, k) {
        tasks.push_back(k)?;
    }
    Ok(())
}

fn push_in(
    alloc: Global,
    p: &Program,
    turns: u32,
    k: u32,
    c: &mut Option<Progress>,
    a: Action,
    answer: Option<u16>,
) -> Result<(), NoMemory>
    requires formed { IsWellFormed (program_of p.now) }
    requires known { IsMaybeKnown (program_of p.now) turns k c.old }
    requires few { k < turns }
    requires can { IsSomeAnd (option_map context_of c.old) (moves.CanDo (source_of (program_of p.now)) a) }
    ensures context { OnOk result (option_map context_of c.new ≡ moves.in_context (moves.with_made a (option_to_list answer)) (option_map context_of c.old)) }
    ensures known { OnOk result (IsMaybeKnown (program_of p.now) turns (k + 1) c.new) }
{
    match c {
        Some(c) => push(alloc, p, turns, c, a, answer),
        None => Ok(()),
    }
}

// The acting context has done one action more.
fn push_acting(
    alloc: Global,
    p: &Program,
    turns: u32,
    k: u32,
    r: &mut RunState,
    a: Action,
    answer: Option<u16>,
) -> Result<(), NoMemory>
    requires formed { IsWellFormed (program_of p.now) }
    requires known { AreKnown (program_of p.now) turns k r.old }
    requires few { k < turns }
    requires can { IsSomeAnd (acting (state_of r.old)) (moves.CanDo (source_of (program_of p.now)) a) }
    ensures state { OnOk result (state_of r.new ≡ moves.in_acting (moves.with_made a (option_to_list answer)) (state_of r.old)) }
    ensures known { OnOk result (AreKnown (program_of p.now) turns (k + 1) r.new) }
{
    if r.handler.is_some() {
        push_in(alloc, p, turns, k, &mut r.handler, a, answer)
    } else {
        push_in(alloc, p, turns, k, &mut r.base, a, answer)
    }
}

fn do_action(
    alloc: Global,
    p: &Program,
    turns: u32,
    k: u32,
    r: &mut RunState,
    a: Action,
) -> Result<(), NoMemory>
    requires formed { IsWellFormed (program_of p.now) }
    requires known { AreKnown (program_of p.now) turns k r.old }
    requires few { k < turns }
    requires can { IsSomeAnd (acting (state_of r.old)) (moves.CanDo (source_of (program_of p.now)) a) }
    ensures state { OnOk result (state_of r.new ≡ moves.after (source_of (program_of p.now)) (state_of r.old) (Do a)) }
    ensures known { OnOk result (AreKnown (program_of p.now) turns (k + 1) r.new) }
{
    let answer = answer(r, a);
    effect(r, a)?;
    push_acting(alloc, p, turns, k, r, a, answer)
}

fn enter(
    alloc: Global,
    p: &Program,
    turns: u32,
    k: u32,
    r: &mut RunState,
    v: u8,
) -> Result<(), NoMemory>
    requires formed { IsWellFormed (program_of p.now) }
    requires known { AreKnown (program_of p.now) turns k r.old }
    ensures state { OnOk result (state_of r.new ≡ moves.after (source_of (program_of p.now)) (state_of r.old) (Enter v)) }
    ensures known { OnOk result (AreKnown (program_of p.now) turns (k + 1) r.new) }
{
    let handler = begun(alloc, p, handler_of(p, v), turns)?;
    r.board = acknowledged(&r.board, v);
    r.handler = Some(handler);
    Ok(())
}

fn body_at(
    alloc: Global,
    p: &Program,
    turns: u32,
    k: u32,
    task: u32,
) -> Result<Option<Progress>, NoMemory>
    requires formed { IsWellFormed (program_of p.now) }
    ensures context { IfOk result (λ c. option_map context_of c ≡ moves.body_at ((source_of (program_of p.now)).task task)) }
    ensures known { IfOk result (λ c. IsMaybeKnown (program_of p.now) turns (k + 1) c) }
{
    match p.tasks.as_slice().get(task as usize) {
        Some(body) => Ok(Some(begun(alloc, p, Some(*body), turns)?)),
        None => Ok(None),
    }
}

fn start_task(
    alloc: Global,
    p: &Program,
    turns: u32,
    k: u32,
    r: &mut RunState,
    task: u32,
) -> Result<(), NoMemory>
    requires formed { IsWellFormed (program_of p.now) }
    requires known { AreKnown (program_of p.now) turns k r.old }
    ensures state { OnOk result (state_of r.new ≡ moves.after (source_of (program_of p.now)) (state_of r.old) (Start task)) }
    ensures known { OnOk result (AreKnown (program_of p.now) turns (k + 1) r.new) }
{
    r.base = body_at(alloc, p, turns, k, task)?;
    take_first(&mut r.tasks);
    Ok(())
}

fn take_first(tasks: &mut VecDeque<u32>)
    ensures { tasks.new.items ≡ moves.rest_of tasks.old.items }
{
    tasks.pop_front();
}

/// Does a legal move.
pub(crate) fn go(
    alloc: Global,
    p: &Program,
    turns: u32,
    k: u32,
    r: &mut RunState,
    m: Move,
) -> Result<(), NoMemory>
    requires formed { IsWellFormed (program_of p.now) }
    requires known { AreKnown (program_of p.now) turns k r.old }
    requires few { k < turns }
    requires legal { moves.LegalThere (source_of (program_of p.now)) (state_of r.old) m }
    ensures state { OnOk result (state_of r.new ≡ moves.after (source_of (program_of p.now)) (state_of r.old) m) }
    ensures known { OnOk result (AreKnown (program_of p.now) turns (k + 1) r.new) }
{
    match m {
        Move::Arrive(g) => r.board = given(&r.board, g),
        Move::Do(a) => do_action(alloc, p, turns, k, r, a)?,
        Move::Enter(v) => enter(alloc, p, turns, k, r, v)?,
        Move::Leave => r.handler = None,
        Move::Start(task) => start_task(alloc, p, turns, k, r, task)?,
        Move::Finish => r.base = None,
    }
    Ok(())
}
