//! Dispatch functions whose targets have parameters of their own.
#![tactic(auto)]

mod arguments;
mod body;
mod calling;
mod calls;
mod cases;
mod combining;
mod types;

pub use body::dispatch;
pub use combining::combines;
pub use types::parameters;
