//! Checks that a list of moves is a run of a program, and gives what it shows.
#![tactic(auto)]

mod board;
mod checking;
mod context;
mod device;
mod legal;
mod moving;
mod run_fault;
mod state;

pub use checking::check_run;
pub use run_fault::RunFault;
