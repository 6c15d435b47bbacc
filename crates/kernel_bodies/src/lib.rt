//! The bodies of the kernel of tasks: those of a program with each post as a call, written in place.
#![tactic(auto)]

mod exprs;
mod stmts;

pub use stmts::post_in_stmt;
