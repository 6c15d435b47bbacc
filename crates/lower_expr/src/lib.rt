//! Expressions and places lowered to middle code.
#![tactic(auto)]

mod laws;
mod rows;
mod spot;

pub use laws::{arguments_run, expressions_run};
pub use rows::worked_rows;
pub use spot::{Regs, Spot};
