//! The image of a program, with tasks or without.
#![tactic(auto)]

mod apart;
mod building;
mod code;
mod kernels;
mod laws;
mod taskless;
mod tasks;

pub use building::build;
pub use laws::{code_is_within_weight, memory_is_within_weights, stack_is_within_weight};
pub use msp_isa::Image;
