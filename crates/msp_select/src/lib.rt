//! Instruction selection: the code of functions of the middle code.
#![tactic(auto)]

mod law;
mod rows;

pub use law::{
    atomic_row_is_open, atomic_row_is_paced, frames_are_small, frames_fit, laid_code_stands,
    lone_return_gives_back, selected_code_is_open, selected_code_is_paced,
};
pub use rows::worked_rows;
