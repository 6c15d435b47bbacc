//! Tables of names.
#![tactic(auto)]

mod name_table;
mod places;

pub use name_table::NameTable;
pub use places::Places;
