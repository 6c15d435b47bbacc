//! The routines that compiled code calls: multiplication, division and shifts.
#![tactic(auto)]

mod bytes;
mod instructions;
mod laws;
mod operations;
mod pieces;
mod routines;
mod rows;
mod wide;
mod words;

pub use laws::{routines_are_routines, routines_are_short};
pub use pieces::put;
pub use routines::{OPERATIONS, RETURN, ROUTINE_FRAME, operation_routines, routine_with};
pub use rows::worked_rows;
pub use words::put_divide;
