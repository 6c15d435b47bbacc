//! What a mote does whose image has the loop of tasks is a loop run of the kernel's program.
#![tactic(auto)]

mod law;

pub use law::{idle_loop_runs, laid_loops_are_built, runs_as_loop};
