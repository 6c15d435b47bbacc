//! The parser of C's part: expressions and types.
#![tactic(auto)]

mod left;
mod parse;
mod probes;

pub use parse::{parse_expr, parse_type};
