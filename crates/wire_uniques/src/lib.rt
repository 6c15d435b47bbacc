//! The uses of `unique` and `uniqueCount` in the sources of an application, and their numbers.
#![tactic(auto)]

mod all_uses;
mod counter;
mod declarations;
mod expressions;
mod part;
mod place;
mod rows;
mod statements;
mod used;

pub use all_uses::{Uniques, number_uses};
pub use rows::worked_rows;
pub use used::Use;
