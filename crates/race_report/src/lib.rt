//! The race report of a program, computed.
#![tactic(auto)]

mod bodies;
mod kinds;
mod parts;
mod paths;
mod pointed;
mod reporting;
mod roots;
mod rows;
mod sources;
mod touched;
mod worked;

pub use reporting::report;
pub use worked::worked_rows;
