//! The routines that check pointers of compiled code.
#![tactic(auto)]

mod checks;
mod laws;
mod rows;

pub use checks::check_routines;
pub use laws::{checks_are_routines, checks_are_short};
pub use rows::worked_rows;
