//! What elaboration gives is well formed.
#![tactic(auto)]

mod laws;

pub use laws::{elaboration_is_well_formed, worked_state};
