//! Functions that call all implementations which the wires give an item, and combine what these give.
#![tactic(auto)]

mod body;
mod calls;
mod case;
mod item;
mod rows;
mod types;

pub use body::dispatch;
pub use case::Case;
pub use rows::worked_rows;
