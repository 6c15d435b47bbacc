//! The pace of lowered code: how many instructions selected code of a lowered program runs between two actions.
#![tactic(auto)]

mod law;
mod rows;

pub use law::{lowered_code_is_paced, lowered_code_is_weighed, selected_code_keeps_pace};
pub use rows::worked_rows;
