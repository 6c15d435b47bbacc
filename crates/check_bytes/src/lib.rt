//! What the routines of checks take of the code.
#![tactic(auto)]

mod laws;

pub use laws::checks_are_small;
