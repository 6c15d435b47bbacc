//! Loop runs of a kernel's program are runs of the source.
#![tactic(auto)]

mod law;

pub use law::{loop_runs, loops_are_followed, one_kernel};
