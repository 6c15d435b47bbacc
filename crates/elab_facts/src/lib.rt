//! What is known of the functions and items of a module's instance: their types, and the bodies that the wires reach.
#![tactic(auto)]

mod declared;
mod facts;
mod forms;
mod targets;

pub use declared::Declared;
pub use facts::Fact;
pub use forms::Form;
pub use targets::{First, Reached, Target};
