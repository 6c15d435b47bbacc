//! The wired program of what was declared, where its limits hold.
#![tactic(auto)]

mod bodies;
mod initial;
mod programs;

pub use programs::program;
