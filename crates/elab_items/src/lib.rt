//! The items of a module's elements: what their interfaces declare, and the bodies that the wires reach from them.
#![tactic(auto)]

mod combined;
mod elements;
mod facts;
mod ground;
mod items;
mod parameters;

pub use elements::facts_of;
pub use ground::Ground;
