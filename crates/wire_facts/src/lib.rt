//! What wires need to know of the types and constants of an application.
#![tactic(auto)]

mod rows;

pub use rows::worked_rows;
