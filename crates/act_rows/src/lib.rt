//! What bodies do, form by form, beside lists of actions worked out by hand.
#![tactic(auto)]

mod laws;
mod row;

pub use laws::{rows_are_well_formed, worked_rows};
pub use row::{Row, Value};
