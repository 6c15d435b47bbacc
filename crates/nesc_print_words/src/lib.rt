//! Which words are printed for a tree: a list of keywords, names, numbers, literals and signs.
#![tactic(auto)]

mod rows;

pub use rows::worked_rows;
