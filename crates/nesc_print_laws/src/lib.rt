//! The words that are printed for a tree spell it again, up to places.
#![tactic(auto)]

mod laws;

pub use laws::{expressions_are_read_again, statements_are_read_again, types_are_read_again};
