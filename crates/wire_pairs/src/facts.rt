//! What is told of the types and constants of instances, and why a wire is refused.

use nm_base::{List, NoMemory, Pos};
use std::alloc::{AllocError, AllocFailed};

/// Why a wire, or a line beside the wires, is refused.
#[derive(Debug, Clone, Copy, PartialEq, Eq)]
pub enum Unlinked {
    BadType(Pos),
    NotConstant(Pos),
    UnknownName(Pos),
    WireMismatch(Pos),
}

/// A constant in brackets: where it begins, and its value or why it has none.
#[derive(Debug, Clone, Copy)]
pub struct Bracket {
    pub at: Pos,
    pub value: Result<i64, Unlinked>,
}

/// What is told of an element of an instance: a number for each type argument, which equal types share, and the greatest value of
/// its parameter.
#[derive(Debug, Drop)]
pub struct ElementFacts {
    pub args: List<u32>,
    pub greatest: Option<u16>,
}

/// What is told of a line of an instance: why its declaration or its arguments are refused, or the brackets of its two ends.
#[derive(Debug, Clone, Copy)]
pub enum LineFacts {
    Refused(Unlinked),
    Brackets(Option<Bracket>, Option<Bracket>),
}

/// What is told of an instance: its elements and its lines, in the order of the text.
#[derive(Debug, Drop)]
pub struct InstanceFacts {
    pub elements: List<ElementFacts>,
    pub lines: List<LineFacts>,
}

/// Why there are no pairs.
#[derive(Debug, Clone, Copy)]
pub enum Stop {
    Unlinked(Unlinked),
    NoMemory,
}

impl From<Unlinked> for Stop {
    ghost use Rattle.std.specs.Prelude.{◌≡◌};
    ghost use Rattle.wire_pairs.specs.declared.facts.Stop.TheVariants as stop;

    ghost from_gives = { λ u e. e ≡ stop.Unlinked u };

    fn from(unlinked: Unlinked) -> Stop {
        Stop::Unlinked(unlinked)
    }
}

impl From<NoMemory> for Stop {
    ghost use Rattle.std.specs.Prelude.{◌≡◌};
    ghost use Rattle.wire_pairs.specs.declared.facts.Stop.TheVariants.{NoMemory};

    ghost from_gives = { λ _ e. e ≡ NoMemory };

    fn from(_error: NoMemory) -> Stop {
        Stop::NoMemory
    }
}

impl From<AllocError> for Stop {
    ghost use Rattle.std.specs.Prelude.{◌≡◌};
    ghost use Rattle.wire_pairs.specs.declared.facts.Stop.TheVariants.{NoMemory};

    ghost from_gives = { λ _ e. e ≡ NoMemory };

    fn from(_error: AllocError) -> Stop {
        Stop::NoMemory
    }
}

impl<T: Drop> From<AllocFailed<T>> for Stop {
    ghost use Rattle.std.specs.Prelude.{◌≡◌};
    ghost use Rattle.wire_pairs.specs.declared.facts.Stop.TheVariants.{NoMemory};

    ghost from_gives = { λ _ e. e ≡ NoMemory };

    fn from(_error: AllocFailed<T>) -> Stop {
        Stop::NoMemory
    }
}
