//! Images with tasks: a mote whose image has the loop of tasks does what the source's program does.
#![tactic(auto)]

mod law;

pub use law::loops_run_as_source;
