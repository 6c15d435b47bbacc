//! The least chains of calls from roots to all bodies, by one search in breadth.
#![tactic(auto)]

mod breadth;
mod chains;
mod ways;

pub use breadth::search;
pub use chains::path_to;
pub use ways::{Search, Way};
