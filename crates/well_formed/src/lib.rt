//! Whether a wired program is well formed.
#![tactic(auto)]

mod bodies;
mod exprs;
mod found;
mod kind;
mod layouts;
mod measure;
mod operators;
mod places;
mod program;
mod scope;
mod stmts;
mod types;
mod ways;

pub use measure::{MOST_DEPTH, MOST_LEVELS, MOST_NODES};
pub use program::{has_few_nodes, is_well_formed};
