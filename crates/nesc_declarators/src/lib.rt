//! The readers of declarators, variables and type names, and of declarations in blocks.
#![tactic(auto)]

mod declarators;
mod locals;
mod parts;
mod type_names;
mod variables;

pub use declarators::{dims, stars};
pub use locals::{begins_local, for_variables, local};
pub use parts::{declared_type, group, plain_variable, with_init};
pub use type_names::typedef;
pub use variables::{closed_variables, more_variables, some_init};
