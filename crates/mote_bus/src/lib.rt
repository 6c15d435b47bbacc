//! The board of a mote, with devices in its slots, and the memory in front of it.
#![tactic(auto)]

mod access;
mod board;
mod bus;
mod laws;
mod slot;

pub use access::Access;
pub use board::{AsBoard, Board, Slots};
pub use bus::{BusOf, MoteBus};
pub use laws::steps_show_accesses;
