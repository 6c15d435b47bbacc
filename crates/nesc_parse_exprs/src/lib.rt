//! Expressions, and the phrases that nest in one another.
#![tactic(auto)]

mod expr_reader;
mod growing;
mod leaves;
mod operations;
mod phrases;
mod primaries;

pub use phrases::{expr, fields, opened, refused, type_form};
