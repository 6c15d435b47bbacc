//! The runs of the types that a program's bodies dereference, each type once.
#![tactic(auto)]

mod laws;

pub use laws::{checks_are_few, runs_are_ranges};
