//! The bytes of items, and of the code that stands in every image.
#![tactic(auto)]

mod laws;

pub use laws::{fixed_code_is_small, items_are_within};
