//! The grammar of nesC, and its laws.
#![tactic(auto)]

mod laws;
mod rows;

pub use laws::{longest_chooses_else, one_tree, probe_tells, reads_the_reach};
pub use rows::{declaration_rows, declaration_trees, worked_rows};
