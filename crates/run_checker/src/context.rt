//! How far a context has come: what it did, and what its body does next.

ghost use Rattle.std.specs.Prelude.{◌≡◌, ◌<◌, ◌+◌, ◌==◌, ◌&&◌, ◌++◌, ◌∷◌, [], ℕ, IfOk, OnOk, Some, slice_get, length, option_to_list};
ghost use Rattle.nm_base.specs.Behaviour as behaviour;
ghost use Rattle.nm_base.specs.Lists.{number_of};
ghost use Rattle.nesc_core.specs.View.{program_of};
ghost use Rattle.nesc_core.specs.WellFormed.{IsWellFormed};
ghost use Rattle.core_meaning.specs.Source.{act_of};
ghost use Rattle.core_meaning.specs.SourceOf.{source_of};
ghost use Rattle.run_meaning.specs.State.{new_context};
ghost use Rattle.run_meaning.specs.Runs.{with_made};
ghost use Rattle.run_checker.specs.Contexts.{IsAnswered, IsKnown, IsPushed, context_of, performance_of};
ghost use Rattle.run_checker.specs.Tells.{Tells};

use core_act::{Performance, performed};
use nesc_core::Program;
use nm_base::{Action, NoMemory};
use std::alloc::Global;

/// A context: its body, the actions that it did, how many of these begin and end an atomic statement, the answers that it got,
/// and with these answers all actions of its body, and whether the body ends with them.
#[derive(Drop)]
pub(crate) struct Progress {
    pub body: Option<u32>,
    pub made: Vec<Action>,
    pub begins: u32,
    pub ends: u32,
    pub answers: Vec<u16>,
    pub ahead: Vec<Action>,
    pub ended: bool,
}

fn ahead_of(
    alloc: Global,
    p: &Program,
    body: Option<u32>,
    answers: &[u16],
    turns: u32,
) -> Result<Performance, NoMemory>
    requires { IsWellFormed (program_of p.now) }
    ensures { IfOk result (λ done. performance_of done ≡ act_of (source_of (program_of p.now)) body answers.now turns) }
{
    match body {
        Some(f) => performed(alloc, p, f, answers, turns),
        None => Ok(Performance {
            actions: Vec::new(alloc),
            ended: true,
        }),
    }
}

/// A context that begins.
pub(crate) fn begun(
    alloc: Global,
    p: &Program,
    body: Option<u32>,
    turns: u32,
) -> Result<Progress, NoMemory>
    requires { IsWellFormed (program_of p.now) }
    ensures context { IfOk result (λ c. context_of c ≡ new_context body) }
    ensures known { IfOk result (λ c. IsKnown (program_of p.now) turns c) }
{
    let done = ahead_of(alloc, p, body, &[], turns)?;
    Ok(Progress {
        body,
        made: Vec::new(alloc),
        begins: 0,
        ends: 0,
        answers: Vec::new(alloc),
        ahead: done.actions,
        ended: done.ended,
    })
}

/// Whether this action comes next.
pub(crate) fn is_next(c: &Progress, a: Action) -> bool
    ensures { Tells result (slice_get c.now.ahead.items (length c.now.made.items) ≡ Some a) }
{
    match c.ahead.get(c.made.len()) {
        Some(next) => *next == a,
        None => false,
    }
}

/// Whether the body has ended.
pub(crate) fn has_ended(c: &Progress) -> bool
    ensures { result ≡ (c.now.ended && length c.now.made.items == length c.now.ahead.items) }
{
    c.ended && c.made.len() == c.ahead.len()
}

// One more where it is so.
fn counted(count: u32, is_one: bool) -> u32
    requires { count + 1 < 0x100000000 }
    ensures { result ≡ count + number_of is_one }
{
    if is_one { count + 1 } else { count }
}

fn is_begin(a: Action) -> bool
    ensures { result ≡ behaviour.is_begin a }
{
    match a {
        Action::Begin => true,
        _ => false,
    }
}

fn is_end(a: Action) -> bool
    ensures { result ≡ behaviour.is_end a }
{
    match a {
        Action::End => true,
        _ => false,
    }
}

fn push_action(c: &mut Progress, a: Action) -> Result<(), NoMemory>
    requires begins { c.old.begins + 1 < 0x100000000 }
    requires ends { c.old.ends + 1 < 0x100000000 }
    ensures { OnOk result (IsPushed a c.old c.new) }
{
    c.made.push(a)?;
    c.begins = counted(c.begins, is_begin(a));
    c.ends = counted(c.ends, is_end(a));
    Ok(())
}

// One answer more.
fn push_answer(
    alloc: Global,
    p: &Program,
    turns: u32,
    c: &mut Progress,
    answer: u16,
) -> Result<(), NoMemory>
    requires { IsWellFormed (program_of p.now) }
    ensures { OnOk result (IsAnswered (program_of p.now) turns answer c.old c.new) }
{
    c.answers.push(answer)?;
    let done = ahead_of(alloc, p, c.body, &c.answers, turns)?;
    c.ahead = done.actions;
    c.ended = done.ended;
    Ok(())
}

/// One action more, which comes next, and its answer.
pub(crate) fn push(
    alloc: Global,
    p: &Program,
    turns: u32,
    c: &mut Progress,
    a: Action,
    answer: Option<u16>,
) -> Result<(), NoMemory>
    requires formed { IsWellFormed (program_of p.now) }
    requires known { IsKnown (program_of p.now) turns c.old }
    requires few { length c.old.made.items < turns }
    requires next { slice_get c.old.ahead.items (length c.old.made.items) ≡ Some a }
    ensures context { OnOk result (context_of c.new ≡ with_made a (option_to_list answer) (context_of c.old)) }
    ensures known { OnOk result (IsKnown (program_of p.now) turns c.new) }
{
    push_action(c, a)?;
    match answer {
        Some(x) => push_answer(alloc, p, turns, c, x),
        None => Ok(()),
    }
}
