//! Assignments, of structs too, whose places are evaluated once.
#![tactic(auto)]

mod copying;
mod freezing;
mod places;
mod stores;

pub use stores::stored;
