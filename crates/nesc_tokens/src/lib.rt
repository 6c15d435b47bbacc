//! The tokens of nesC texts: line splices, separators, and the longest lexeme at each place.
#![tactic(auto)]

mod classes;
mod joined;
mod lexer;
mod literals;
mod longest;
mod numbers;
mod pieces;
mod rows;
mod signs;
mod splice;

pub use joined::{joined_bytes, stands_at};
pub use lexer::{lex, one_lexing};
pub use rows::worked_rows;
pub use splice::SourceByte;
