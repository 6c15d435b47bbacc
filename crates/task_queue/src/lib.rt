//! The kernel of tasks: a program that keeps its pending tasks as a list in bytes.
#![tactic(auto)]

mod rows;

pub use rows::worked_rows;
