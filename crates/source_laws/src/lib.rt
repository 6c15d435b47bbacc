//! Laws of what bodies do, for every program.
#![tactic(auto)]

mod laws;

pub use laws::{bodies_are_orderly, depth_cuts_nothing};
