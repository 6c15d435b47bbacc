//! What is told of the types and constants of an application's instances.
#![tactic(auto)]

mod application;
mod brackets;
mod components;
mod faults;
mod instances;
mod lines;
mod lookup;
mod newcomers;
mod singles;
mod sources;
mod survey;
mod taking;
mod told;

pub use application::{facts, sight};
pub use sources::Sources;
pub use survey::Sight;
pub use taking::taken_facts;
