//! Files that are told give one application, and it has one program.
#![tactic(auto)]

mod laws;

pub use laws::{one_program, one_wiring};
