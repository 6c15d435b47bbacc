//! The image of a program: lowered, selected, put together with its routines and pieces, and laid out.
#![tactic(auto)]

mod building;
mod code;
mod data;
mod numbers;

pub use building::build;
pub use code::{add_routines, handler_of};
pub use data::data_bytes;
pub use msp_isa::Image;
pub use numbers::{are_countable, lines_from, reset_place};
