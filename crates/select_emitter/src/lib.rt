//! Instruction selection: middle code written as the code of functions.
#![tactic(auto)]

mod calls;
mod frames;
mod functions;
mod laws;
mod operands;
mod pieces;
mod put;
mod rows;
mod scope;
mod selection;

pub use laws::{calls_stay, frames_are_bounded, items_are_written, links_stay};
pub use msp_isa::{CodeFn, Item};
pub use rows::worked_rows;
pub use selection::select;
