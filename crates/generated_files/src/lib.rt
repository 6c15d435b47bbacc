//! The files of an application made from a number, and the rows of its schedule.
#![tactic(auto)]

mod files;
mod rows;
mod schedule;
#[cfg(test)]
mod tests;
mod texts;

pub use files::{MAX_MODULES, gen_files};
pub use rows::worked_rows;
pub use schedule::gen_rows;
