//! The readers of initialisers and attributes.
#![tactic(auto)]

mod attribute_reader;
mod inits;
mod parts;

pub use attribute_reader::attributes;
pub use inits::{begins_init, braces, init};
pub use parts::{added, no_list, single};
