//! Each printed word of a tree that whole tokens spell is a lexeme by itself.
#![tactic(auto)]

mod laws;

pub use laws::{lexed_tokens_are_whole, printed_words_are_whole};
