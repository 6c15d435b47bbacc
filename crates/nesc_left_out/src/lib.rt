//! Why a text is refused, and which form that this profile leaves out its first wrong token begins.
#![tactic(auto)]

mod left;
mod marks;
mod probes;
mod reader;
mod refusals;

pub use left::Place;
pub use marks::mark;
pub use probes::left_out;
pub use reader::{Reader, is_ended};
pub use refusals::{fault_of, refused};
