//! The parser of declarations outside of blocks.
#![tactic(auto)]

mod lists;
mod parse;

pub use parse::{parse_decls, parse_decls_of};
