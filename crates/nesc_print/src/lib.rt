//! Files of nesC printed: a text of the words that spell a tree, laid out as a person would read it.
#![tactic(auto)]

mod configurations;
mod heads;
mod interfaces;
mod units;

pub use units::print;
