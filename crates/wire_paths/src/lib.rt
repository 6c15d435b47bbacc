//! The paths of an application's wires: none meets an end twice, and from no end are there too many.
#![tactic(auto)]

mod application;
mod elements;
mod ground;
mod net;
mod paths;
mod wires;

pub use application::nets;
pub use ground::Nets;
pub use net::Net;
pub use wires::Way;
