//! That lowered programs keep the rules of form of middle code.
#![tactic(auto)]

mod laws;
mod short;

pub use laws::{code_is_small, form_is_kept, instructions_are_sound, numbers_are_small};
pub use short::{MOST_EXTRAS, MOST_NODES, is_short};
