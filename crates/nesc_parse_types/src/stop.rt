//! Why reading stops.

ghost use Rattle.std.specs.Prelude.{◌≡◌};
ghost use Rattle.nesc_parse_types.specs.declared.stop.Stop.TheVariants.{Memory};

use nm_base::{NoMemory, Token};
use std::alloc::{AllocError, AllocFailed};

/// Why reading stops, and the tokens from there on.
#[derive(Debug, Drop)]
pub enum Stop<'a> {
    Memory,
    /// No text goes on with the first of them.
    Syntax(&'a [Token]),
    /// Some text does, but none of few enough levels.
    Deep(&'a [Token]),
}

/// What was read, and the tokens behind it.
pub type Found<'a, T> = Result<(T, &'a [Token]), Stop<'a>>;

impl From<NoMemory> for Stop<'_> {
    ghost from_gives = { λ _ e. e ≡ Memory };

    fn from(_error: NoMemory) -> Self {
        Stop::Memory
    }
}

impl From<AllocError> for Stop<'_> {
    ghost from_gives = { λ _ e. e ≡ Memory };

    fn from(_error: AllocError) -> Self {
        Stop::Memory
    }
}

impl<T: Drop> From<AllocFailed<T>> for Stop<'_> {
    ghost from_gives = { λ _ e. e ≡ Memory };

    fn from(_error: AllocFailed<T>) -> Self {
        Stop::Memory
    }
}
