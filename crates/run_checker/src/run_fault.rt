//! Why moves are refused.

use thiserror::Error;

/// The place of the first move that is not legal after those before it, or want of memory.
#[derive(Clone, Copy, Debug, PartialEq, Eq, Error)]
pub enum RunFault {
    #[error("bad move {0}")]
    BadMove(u32),
    #[error("no memory")]
    NoMemory,
}
