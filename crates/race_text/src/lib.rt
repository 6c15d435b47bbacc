//! The text of a race report.
#![tactic(auto)]

mod names;
mod printing;

pub use names::push_path;
pub use printing::print_report;
