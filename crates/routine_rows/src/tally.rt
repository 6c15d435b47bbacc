//! What is counted over the calls of a routine.

ghost use Rattle.std.specs.Prelude.{◌≡◌};

use crate::mote::Called;
use std::fmt;

/// How many calls there were and how many of them were wrong, and the most instructions and bytes of stack that one took.
#[derive(Clone, Copy)]
pub struct Tally {
    pub calls: u32,
    pub wrong: u32,
    pub steps: u32,
    pub stack: u16,
}

impl Tally {
    pub fn new() -> Tally
        ensures { result ≡ record { calls = 0; wrong = 0; steps = 0; stack = 0 } }
    {
        Tally {
            calls: 0,
            wrong: 0,
            steps: 0,
            stack: 0,
        }
    }

    /// Counts a call.
    pub fn count(&mut self, called: &Called, is_right: bool) {
        self.calls = self.calls.saturating_add(1);
        if !is_right {
            self.wrong = self.wrong.saturating_add(1);
        }
        self.steps = self.steps.max(called.steps);
        self.stack = self.stack.max(called.stack);
    }
}

impl fmt::Display for Tally {
    fn fmt<W: fmt::Write>(&self, f: &mut fmt::Formatter<W>) -> Result<(), fmt::Error> {
        write!(
            f,
            "{} values, {} wrong, {} instructions, {} bytes of stack",
            self.calls, self.wrong, self.steps, self.stack
        )
    }
}
