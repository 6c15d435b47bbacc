//! Expressions and types as words that are printed.
#![tactic(auto)]

mod expressions;
mod operators;
mod words;

pub use expressions::{put_before_name, put_declarator, put_dims, put_expr, put_type};
pub use words::Words;
