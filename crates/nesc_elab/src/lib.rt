//! The wired program of an application: its trees, instances and wires elaborated.
#![tactic(auto)]

mod application;
mod elaboration;

pub use application::wired;
pub use elaboration::elaborate;
