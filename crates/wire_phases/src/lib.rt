//! The phases behind reading: the instances of an application, its wires, and the paths along them.
#![tactic(auto)]

mod creation;
mod faults;
mod network;
mod phases;
mod rows;
mod telling;

pub use creation::created;
pub use faults::{creation_fault, wire_fault};
pub use network::{Links, Network, closed, wired};
pub use phases::linked;
pub use rows::worked_rows;
pub use telling::Telling;
