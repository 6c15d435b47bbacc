//! The kernel's bytes stand for the list of pending tasks.
#![tactic(auto)]

mod law;

pub use law::each_kernel_queues;
