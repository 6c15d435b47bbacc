//! The parser of statements.
#![tactic(auto)]

mod parse;

pub use parse::parse_body;
