//! The functions that declarations call and the tasks that they post, by name, and the numbers of functions and tasks among them.
#![tactic(auto)]

mod expressions;
mod numbers;
mod statements;
mod uses;

pub use numbers::{bodies_in, function_place, implementation_place, is_item_kind, is_task_kind};
pub use statements::{in_decl, in_decls};
pub use uses::is_used;
