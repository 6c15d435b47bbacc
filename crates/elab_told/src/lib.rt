//! What is told to the declarations of headers and of instances, and what is given to instances.
#![tactic(auto)]

mod environments;
mod given;
mod items;
mod met;
mod own;
mod printed;
mod structs;
mod told;
mod uses;

pub use environments::head_told;
pub use given::given_names;
pub use met::Met;
pub use structs::structs_met;
pub use told::{header_told, instance_told};
pub use uses::{header_uses, instance_uses};
