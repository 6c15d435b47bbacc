//! Words, and texts of them with white space between them, whose tokens are these words.
#![tactic(auto)]

mod apart;
mod laid;
mod laws;
mod rows;
mod word;

pub use laid::lay_out;
pub use laws::words_lex;
pub use rows::worked_rows;
pub use word::{Gap, Word};
