//! Macros, and the expansion of a list of tokens by hide sets.
#![tactic(auto)]

mod definition;
mod expansion;
mod frames;
mod hide_sets;
mod invocation;
mod macros;
mod marks;
mod names;
mod pending;
mod replacement;
mod rows;
mod table;
mod waiting;

pub use definition::Macro;
pub use expansion::expand_list;
pub use macros::Macros;
pub use names::{is_among, is_sign, is_word};
pub use rows::worked_rows;
