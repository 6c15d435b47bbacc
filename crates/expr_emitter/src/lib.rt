//! The emitter: expressions and places written as middle code.
#![tactic(auto)]

mod accesses;
pub mod conversions;
mod elements;
mod expressions;
mod kinds;
mod laws;
pub mod levels;
mod lowering;
pub mod numbers;
mod operators;
mod pieces;
pub mod put;
mod rows;
mod scope;
pub mod types;

pub use expressions::emit_expr;
pub use laws::{labels_differ, values_below};
pub use lower_expr::{Regs, Spot};
pub use lowering::{first_label, lower_expr};
pub use rows::{form_rows, operator_rows};
pub use scope::Scope;
