//! The readers of declarations outside of blocks.
#![tactic(auto)]

mod decl_reader;
mod declaring;
mod ends;
mod first_variables;
mod functions;
mod named;

pub use decl_reader::{decl, decls};
