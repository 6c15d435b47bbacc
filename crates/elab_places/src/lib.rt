//! Places of wired expressions: as values, addresses, elements and fields, and assignments to numbers and pointers.
#![tactic(auto)]

mod assignments;
mod places;
mod values;

pub use assignments::{
    assigned, cast_to, decremented, incremented, step_updated, stepped, updated,
};
pub use places::{addressed, behind, dereferenced, member, member_behind, read_at};
pub use values::{decremented_place, incremented_place, indexed, on_value};
