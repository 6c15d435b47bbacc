//! The wired program of expressions, constants and types: a walk over their trees.
#![tactic(auto)]

mod constants;
mod exprs;
mod types;
mod walk;

pub use elab_forms::Told;
pub use exprs::{base, constant, found, lengths, type_of, value};
