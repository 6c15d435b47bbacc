//! The kernel of tasks keeps the contract of a kernel.
#![tactic(auto)]

mod law;

pub use law::each_kernel_keeps;
