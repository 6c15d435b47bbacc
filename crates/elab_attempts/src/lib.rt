//! Names in force in the text of a module, whatever is refused in it.
#![tactic(auto)]

mod attempts;
mod both;
mod copies;
mod cuts;
mod refusals;
mod scopes;
mod variables;
mod works;

pub use scopes::Scopes;
