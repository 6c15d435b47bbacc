//! The order in which the files of an application are read.
#![tactic(auto)]

mod laws;
mod opener;
mod reading;
#[cfg(test)]
mod tests;
mod waiting;

pub use laws::{one_reading, worked_rows};
pub use opener::{Need, Opener};
pub use reading::read_files;
