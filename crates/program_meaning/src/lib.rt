//! What the trees, instances and wires of an application are wired to: the whole program.
#![tactic(auto)]

mod rows;
mod used;

pub use rows::worked_rows;
pub use used::Use;
