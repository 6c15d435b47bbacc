//! The readers of the heads of components: generic parameters, attributes, the elements of a specification.
#![tactic(auto)]

mod elements;
mod generics;
mod heads;
mod parts;
mod specifications;

pub use elements::named_as;
pub use generics::type_parameter;
pub use heads::{attributes, head};
pub use parts::joined;
