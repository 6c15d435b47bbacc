//! Wired programs as texts.
#![tactic(auto)]

mod expressions;
mod names;
mod statements;
mod text;

pub use expressions::expr_text;
pub use names::type_text;
pub use statements::stmt_text;
pub use text::{Places, Text};
