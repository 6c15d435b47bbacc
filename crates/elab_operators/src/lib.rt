//! Operators between two values, `?:`, elements, and operators before an operand.
#![tactic(auto)]

mod additions;
mod choice;
mod comparisons;
mod elements;
mod numbers;
mod operators;
mod pointers;
mod prefixes;

pub use choice::chosen;
pub use elements::element;
pub use operators::binary;
pub use prefixes::{MAX_LEVELS, as_value, prefixed};
