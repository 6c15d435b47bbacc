//! The parsers of the files of components and interfaces.
#![tactic(auto)]

mod components;
mod kinds;
mod named;
mod parse;
mod parts;
mod units;

pub use kinds::UnitKind;
pub use parse::{parse_component, parse_interface};
