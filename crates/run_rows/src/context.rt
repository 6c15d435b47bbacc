//! How far a body has come.

ghost use Rattle.nesc_core.specs.View.{program_of};
ghost use Rattle.nesc_core.specs.WellFormed.{IsWellFormed};

use core_act::{Performance, performed};
use nesc_core::Program;
use nm_base::{Action, NoMemory};
use std::alloc::Global;

/// More turns than a loop makes.
const TURNS: u32 = u32::MAX;

/// A body that runs: the answers that it got, what it does with these, how many of these actions are done, and how many atomic statements
/// are open.
#[derive(Drop)]
pub struct Context {
    body: Option<u32>,
    answers: Vec<u16>,
    ahead: Performance,
    done: usize,
    open: u32,
}

// What a body does with these answers; without a body nothing.
fn ahead_of(
    alloc: Global,
    program: &Program,
    body: Option<u32>,
    answers: &[u16],
) -> Result<Performance, NoMemory>
    requires { IsWellFormed (program_of program.now) }
{
    match body {
        Some(body) => performed(alloc, program, body, answers, TURNS),
        None => Ok(Performance {
            actions: Vec::new(alloc),
            ended: true,
        }),
    }
}

impl Context {
    /// A body that begins.
    pub fn begin(alloc: Global, program: &Program, body: Option<u32>) -> Result<Context, NoMemory>
        requires { IsWellFormed (program_of program.now) }
    {
        Ok(Context {
            body,
            answers: Vec::new(alloc),
            ahead: ahead_of(alloc, program, body, &[])?,
            done: 0,
            open: 0,
        })
    }

    /// What it does next; None at its end.
    pub fn next(&self) -> Option<Action> {
        self.ahead.actions.get(self.done).copied()
    }

    /// Whether it is at its end, and not only out of turns.
    pub fn has_ended(&self) -> bool {
        self.ahead.ended && self.done >= self.ahead.actions.len()
    }

    /// Whether an atomic statement is open.
    pub fn is_inside(&self) -> bool {
        self.open > 0
    }

    fn count(&mut self, action: Action) {
        self.done = self.done.saturating_add(1);
        match action {
            Action::Begin => self.open = self.open.saturating_add(1),
            Action::End => self.open = self.open.saturating_sub(1),
            _ => {}
        }
    }

    /// Does its next action, which has this answer, if any.
    pub fn advance(
        &mut self,
        alloc: Global,
        program: &Program,
        action: Action,
        answer: Option<u16>,
    ) -> Result<(), NoMemory>
        requires { IsWellFormed (program_of program.now) }
    {
        self.count(action);
        if let Some(answer) = answer {
            self.answers.push(answer)?;
            self.ahead = ahead_of(alloc, program, self.body, &self.answers)?;
        }
        Ok(())
    }
}
