//! The readers of the lines of configurations: components, wires, types.
#![tactic(auto)]

mod arguments;
mod components;
mod line_reader;
mod parts;
mod wires;

pub use line_reader::lines;
