//! The wired program of statements: a walk over their trees, with scopes and the cases of switches.
#![tactic(auto)]

mod parts;
mod stmts;
mod switches;
mod walk;

pub use stmts::{items, stmt};
