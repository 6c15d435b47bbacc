//! Names that declarations make and hide, and how the end of a block gives them back.
#![tactic(auto)]

mod scope;

pub use scope::{declare_type, give_back, hide};
