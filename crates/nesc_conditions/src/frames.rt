//! What waits for the operand that is read.

ghost use Rattle.std.specs.Prelude.{◌≡◌, [], ◌∷◌, IfOk, MatchOption};
ghost use Rattle.nesc_conditions.specs.Frames.{frame_level, level};

use crate::arithmetic::Value;
use crate::operator::{self, CONDITIONAL_LEVEL, Operator, PREFIX_LEVEL};
use nm_base::NoMemory;
use std::alloc::Global;
use std::marker::Model;

/// What waits for an operand.
#[derive(Clone, Copy, Debug)]
pub(crate) enum Frame {
    Prefix(operator::Prefix),
    /// An operator and its left operand.
    Infix(Operator, Value),
    Group,
    /// A condition with its question mark.
    Middle(Value),
    /// A condition and the value before the colon.
    Otherwise(Value, Value),
}

impl Frame {
    /// Operators from this level on belong to the operand.
    pub(crate) fn level(self) -> u8
        ensures { result ≡ frame_level self }
    {
        match self {
            Frame::Prefix(_) => PREFIX_LEVEL,
            Frame::Infix(operator, _) => operator.level() + 1,
            Frame::Group | Frame::Middle(_) => 0,
            Frame::Otherwise(..) => CONDITIONAL_LEVEL,
        }
    }
}

/// All that waits, which contracts see with the innermost first.
#[derive(Debug, Drop)]
pub(crate) struct Frames {
    frames: Vec<Frame>,
}

impl Model for Frames {
    ghost use Rattle.std.specs.Prelude.{List, reverse};
    ghost use Rattle.nesc_conditions.specs.declared.frames.Frame.{Frame as FrameOf};

    ghost Value = { List FrameOf };

    ghost view = { λ f. reverse f.frames.items };
}

impl Frames {
    pub(crate) fn new(alloc: Global) -> Frames
        ensures { result ≡ [] }
    {
        Frames {
            frames: Vec::new(alloc),
        }
    }

    pub(crate) fn push(&mut self, frame: Frame) -> Result<(), NoMemory>
        ensures { IfOk result (λ _. self.new ≡ frame ∷ self.old) }
    {
        self.frames.push(frame)?;
        Ok(())
    }

    pub(crate) fn pop(&mut self) -> Option<Frame>
        ensures { MatchOption result ((self.old ≡ []) × (self.new ≡ [])) (λ frame. self.old ≡ frame ∷ self.new) }
    {
        self.frames.pop()
    }

    /// Operators from this level on belong to the operand that is read.
    pub(crate) fn level(&self) -> u8
        ensures { result ≡ level self.now }
    {
        match self.frames.last() {
            Some(frame) => frame.level(),
            None => 0,
        }
    }
}
