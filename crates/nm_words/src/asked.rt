//! What the words of a command line ask for.

use crate::mode::Mode;
use std::alloc::AllocError;

/// What is done: the mode, what it runs (an application, the file of an image, or a number of modules), the file of its
/// schedule where the mode takes one, and the most slots of a run.
#[derive(Clone, Copy, Debug, PartialEq, Eq)]
pub struct Request<'a> {
    pub mode: Mode,
    pub subject: &'a str,
    pub schedule: Option<&'a str>,
    pub budget: u32,
}

/// What words in use ask for.
#[derive(Clone, Copy, Debug, PartialEq, Eq)]
pub enum Asked<'a> {
    Request(Request<'a>),
    Help,
    Version,
}

/// Why words are not read: they are not in use, or memory was refused.
#[derive(Clone, Copy, Debug, PartialEq, Eq)]
pub enum WordsFault {
    Usage,
    NoMemory,
}

impl From<AllocError> for WordsFault {
    ghost use Rattle.std.specs.Prelude.{◌≡◌};
    ghost use Rattle.nm_words.specs.declared.asked.WordsFault.TheVariants.{NoMemory};

    ghost from_gives = { λ _ e. e ≡ NoMemory };

    fn from(_error: AllocError) -> WordsFault {
        WordsFault::NoMemory
    }
}
