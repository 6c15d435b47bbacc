//! Objects with their addresses, and the limits of the whole program.
#![tactic(auto)]

mod limits;
mod objects;
mod variables;

pub use limits::limited;
pub use objects::objects_of;
pub use variables::{Boot, Variable};
