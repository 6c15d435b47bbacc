//! Constants: the types and numbers of literals, the usual arithmetic conversions, constant expressions, and the addresses of objects.
#![tactic(auto)]

mod addresses;
mod conversions;
mod evaluation;
mod literals;
pub mod operators;
mod rows;
mod values;

pub use addresses::place;
pub use conversions::{common, promoted};
pub use evaluation::{constant, pos_of};
pub use literals::{character, number};
pub use rows::{literal_rows, operator_rows, worked_constants};
pub use values::{Constant, Constants};
