//! Scopes of components, of which one is in force at a time behind the names of headers, and the numbers of types.
#![tactic(auto)]

mod copies;
mod scopes;
mod types;

pub use copies::copied_scope;
pub use scopes::{Base, Own, Scope, base_of, declaring, exchange, in_block, no_scope};
pub use types::Types;
