//! The pace of lean programs: how many instructions their code runs between two actions, by the largest body.
#![tactic(auto)]

mod law;
mod rows;

pub use law::{
    kernel_is_lean, kernel_keeps_pace, lean_code_is_weighed, lean_code_keeps_pace, lean_is_measured,
};
pub use rows::worked_rows;
