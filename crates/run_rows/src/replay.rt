//! A run of a program that follows the events of a trace.

ghost use Rattle.nesc_core.specs.View.{program_of};
ghost use Rattle.nesc_core.specs.WellFormed.{IsWellFormed};

use crate::context::Context;
use crate::memory::Memory;
use mote_devices::Shown;
use nesc_core::Program;
use nm_base::{Action, NoMemory};
use run_meaning::Move;
use std::alloc::Global;

/// More moves than a run has.
const MOVES: u32 = u32::MAX;

/// The answers to a post of a task that does not wait, and of one that does.
const SUCCESS: u16 = 0;

const BUSY: u16 = 5;

/// A run so far: what it stored, the tasks that wait, what the base and a handler have done, and its moves.
#[derive(Drop)]
pub struct Replay {
    memory: Memory,
    base: Option<Context>,
    handler: Option<Context>,
    pub moves: Vec<Move>,
}

// The body of the first entry of this line.
fn handler_of(program: &Program, line: u8) -> Option<u32> {
    for (at, body) in program.handlers.as_slice() {
        if *at == line {
            return Some(*body);
        }
    }
    None
}

// What a context does next; at its end, this move.
fn next_of(context: &Context, end: Move) -> Option<Move> {
    match context.next() {
        Some(action) => Some(Move::Do(action)),
        None if context.has_ended() => Some(end),
        None => None,
    }
}

// Whether a move of a context is shown.
fn shows(next: Move) -> bool {
    matches!(
        next,
        Move::Do(Action::In(_) | Action::Out(..) | Action::Fault(_))
    )
}

// Whether a move shows this event, whatever a port reads.
fn is_of(next: Move, event: Shown) -> bool {
    match (next, event) {
        (Move::Do(Action::In(port)), Shown::In(at, _)) => port == at,
        (Move::Do(Action::Out(port, word)), Shown::Out(at, value)) => port == at && word == value,
        (Move::Do(Action::Fault(code)), Shown::Fault(of)) => u16::from(code) == of,
        _ => false,
    }
}

// What a port reads by an event; 0 where it shows no read.
fn read_in(event: Shown) -> u16 {
    match event {
        Shown::In(_, value) => value,
        _ => 0,
    }
}

// A context, where there is one, does its next action.
fn advance(
    alloc: Global,
    program: &Program,
    context: &mut Option<Context>,
    action: Action,
    answer: Option<u16>,
) -> Result<(), NoMemory>
    requires { IsWellFormed (program_of program.now) }
{
    match context {
        Some(context) => context.advance(alloc, program, action, answer),
        None => Ok(()),
    }
}

impl Replay {
    /// The run before its first move.
    pub fn new(alloc: Global, program: &Program) -> Result<Replay, NoMemory>
        requires { IsWellFormed (program_of program.now) }
    {
        Ok(Replay {
            memory: Memory::new(alloc)?,
            base: Some(Context::begin(alloc, program, Some(program.boot))?),
            handler: None,
            moves: Vec::new(alloc),
        })
    }

    // The next move that nothing from outside makes.
    fn next(&self) -> Option<Move> {
        match (&self.handler, &self.base) {
            (Some(handler), _) => next_of(handler, Move::Leave),
            (None, Some(base)) => next_of(base, Move::Finish),
            (None, None) => None,
        }
    }

    // Whether a handler may enter.
    fn is_open(&self) -> bool {
        match (&self.handler, &self.base) {
            (Some(_), _) => false,
            (None, Some(base)) => !base.is_inside(),
            (None, None) => true,
        }
    }

    // The answer to an action, where it has one; a port reads this.
    fn answer(&self, action: Action, read: u16) -> Option<u16> {
        match action {
            Action::Load(address, is_word) => Some(self.memory.load(address, is_word)),
            Action::In(_) => Some(read),
            _ => None,
        }
    }

    fn act(
        &mut self,
        alloc: Global,
        program: &Program,
        action: Action,
        read: u16,
    ) -> Result<(), NoMemory>
        requires { IsWellFormed (program_of program.now) }
    {
        let answer = self.answer(action, read);
        if let Action::Store(address, is_word, word) = action {
            self.memory.store(address, is_word, word);
        }
        if self.handler.is_some() {
            advance(alloc, program, &mut self.handler, action, answer)
        } else {
            advance(alloc, program, &mut self.base, action, answer)
        }
    }

    // A move that is shown by this event, or by none.
    fn make(
        &mut self,
        alloc: Global,
        program: &Program,
        next: Move,
        read: u16,
    ) -> Result<(), NoMemory>
        requires { IsWellFormed (program_of program.now) }
    {
        self.moves.push(next)?;
        match next {
            Move::Arrive(_) | Move::Start(_) => {}
            Move::Do(action) => self.act(alloc, program, action, read)?,
            Move::Enter(line) => {
                let body = handler_of(program, line);
                self.handler = Some(Context::begin(alloc, program, body)?);
            }
            Move::Leave => self.handler = None,
            Move::Finish => self.base = None,
        }
        Ok(())
    }

    // Goes on up to a move that is shown; whether it shows this event.
    fn show(&mut self, alloc: Global, program: &Program, event: Shown) -> Result<bool, NoMemory>
        requires { IsWellFormed (program_of program.now) }
    {
        for _ in 0..MOVES {
            let Some(next) = self.next() else {
                return Ok(false);
            };
            self.make(alloc, program, next, read_in(event))?;
            if shows(next) {
                return Ok(is_of(next, event));
            }
        }
        Ok(false)
    }

    // Enters a handler behind so many moves of the base outside of atomic statements, or before the first that is shown.
    fn enter(
        &mut self,
        alloc: Global,
        program: &Program,
        line: u8,
        delay: u32,
    ) -> Result<bool, NoMemory>
        requires { IsWellFormed (program_of program.now) }
    {
        let mut left = delay;
        for _ in 0..MOVES {
            let is_open = self.is_open();
            match self.next() {
                Some(next) if !shows(next) && !(is_open && left == 0) => {
                    self.make(alloc, program, next, 0)?;
                }
                _ => break,
            }
            if is_open {
                left = left.saturating_sub(1);
            }
        }
        if self.is_open() {
            self.make(alloc, program, Move::Enter(line), 0)?;
            return Ok(true);
        }
        Ok(false)
    }

    /// Goes on up to an event of the trace; a handler enters after so many moves in which it could have. Whether the program shows this event.
    pub fn follow(
        &mut self,
        alloc: Global,
        program: &Program,
        event: Shown,
        delay: u32,
    ) -> Result<bool, NoMemory>
        requires { IsWellFormed (program_of program.now) }
    {
        match event {
            Shown::Given(given) => {
                self.make(alloc, program, Move::Arrive(given), 0)?;
                Ok(true)
            }
            Shown::Enter(line) => self.enter(alloc, program, line, delay),
            Shown::In(..) | Shown::Out(..) | Shown::Fault(_) => self.show(alloc, program, event),
        }
    }

    /// Goes on until nothing is left to do, or up to a move that is shown.
    pub fn finish(&mut self, alloc: Global, program: &Program) -> Result<(), NoMemory>
        requires { IsWellFormed (program_of program.now) }
    {
        for _ in 0..MOVES {
            let Some(next) = self.next() else {
                return Ok(());
            };
            self.make(alloc, program, next, 0)?;
            if shows(next) {
                return Ok(());
            }
        }
        Ok(())
    }
}
