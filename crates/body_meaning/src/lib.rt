//! What the statements of a function, and the declarations in them, are wired to.
#![tactic(auto)]

mod rows;

pub use rows::worked_rows;
