//! The reader of statements.
#![tactic(auto)]

mod for_heads;
mod statements;

pub use statements::stmt;
