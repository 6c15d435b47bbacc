//! Where the accesses of bodies lie.
#![tactic(auto)]

mod laws;

pub use laws::{accesses_are_of_objects, objects_lie_in_data};
