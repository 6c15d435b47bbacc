//! The code round compiled bodies: entry and exit of a handler, atomic statements, sleep, and reset.
#![tactic(auto)]

mod pieces;
mod put;

pub use msp_isa::{CodeFn, Item};
pub use pieces::{PieceKind, handler_code, piece, reset_code};
