//! What elaboration has of the whole program so far, and what is added to it.
#![tactic(auto)]

mod boot;
mod whole;

pub use whole::{Whole, nothing};
