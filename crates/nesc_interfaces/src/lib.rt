//! The readers of interfaces: their type parameters, commands and events.
#![tactic(auto)]

mod interfaces;
mod items;
mod parts;

pub use interfaces::interface;
