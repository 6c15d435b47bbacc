//! The readers of parameters, and of what stands round the name of a function.
#![tactic(auto)]

mod brackets;
mod parameter_reader;
mod parts;
mod words;

pub use brackets::{bracket, bracket_rest, some_item_name};
pub use parameter_reader::parameters;
pub use words::{Words, function_words, no_words};
