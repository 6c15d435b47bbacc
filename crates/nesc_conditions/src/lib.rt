//! The condition of an `#if` or `#elif` line.
#![tactic(auto)]

mod arithmetic;
mod condition;
mod defined;
mod frames;
pub mod literals;
mod operator;
mod rows;
mod spelled;

pub use condition::value_of;
pub use defined::resolve_defined;
pub use rows::{resolution, worked_rows};
