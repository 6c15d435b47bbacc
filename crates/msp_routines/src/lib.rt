//! All routines that compiled code calls, in the order of their places.
#![tactic(auto)]

mod laws;
mod routines;

pub use laws::{routines_call_nothing, routines_can_be_laid_out, routines_stand};
pub use routines::routines_of;
