//! The code from reset on of a program with tasks: the loop that starts one task after another.
#![tactic(auto)]

mod loops;

pub use loops::loop_code;
