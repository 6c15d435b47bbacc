//! The kernel of a well-formed program is well formed.
#![tactic(auto)]

mod laws;

pub use laws::kernel_is_well_formed;
