//! What elaboration is given of an application: its files, instances and pairs decide it.
#![tactic(auto)]

mod laws;

pub use laws::one_given;
