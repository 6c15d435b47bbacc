//! What modules lack: items that they must implement, and calls and signals that reach nothing and have no default.
#![tactic(auto)]

mod rows;

pub use rows::worked_rows;
