//! Where wires lead: the ends that paths of wires reach, in the order of the wires along them.
#![tactic(auto)]

mod end;
mod laws;
mod reached;
mod steps;
mod table;
mod walk;

pub use end::{End, Wire};
pub use laws::one_answer;
pub use reached::targets;
pub use table::Table;
pub use walk::Stop;
