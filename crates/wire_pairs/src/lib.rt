//! The pairs of ends that the wires of an application link.
#![tactic(auto)]

mod application;
mod boot;
mod brackets;
mod ends;
mod facts;
mod fits;
mod lines;
mod lookup;
mod makers;
mod named;
mod rows;
mod seen;
mod tables;

pub use application::pairs;
pub use brackets::is_before;
pub use ends::{End, Pair};
pub use facts::{Bracket, ElementFacts, InstanceFacts, LineFacts, Stop, Unlinked};
pub use makers::{Makers, made_at, makers_of};
pub use rows::worked_rows;
