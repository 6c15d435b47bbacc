//! Elaboration of expressions, constants and types only adds to what is in force.
#![tactic(auto)]

mod laws;

pub use laws::elaboration_grows;
