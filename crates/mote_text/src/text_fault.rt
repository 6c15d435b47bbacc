//! What is wrong with a text.

ghost use Rattle.std.specs.Prelude.{◌≡◌};
ghost use Rattle.mote_text.specs.declared.text_fault.TextFault.TheVariants.{NoMemory as TextNoMemory};

use nm_base::Limit;
use std::alloc::{AllocError, AllocFailed};

/// Why a text was not read: the first line of an image or of a schedule that is refused, numbered from 1, too many
/// rows, or no memory.
#[derive(Clone, Copy, Debug, PartialEq, Eq)]
pub enum TextFault {
    BadImage(u32),
    BadSchedule(u32),
    Limit(Limit),
    NoMemory,
}

impl From<AllocError> for TextFault {
    ghost from_gives = { λ _ e. e ≡ TextNoMemory };

    fn from(_error: AllocError) -> TextFault {
        TextFault::NoMemory
    }
}

impl<T: Drop> From<AllocFailed<T>> for TextFault {
    ghost from_gives = { λ _ e. e ≡ TextNoMemory };

    fn from(_error: AllocFailed<T>) -> TextFault {
        TextFault::NoMemory
    }
}
