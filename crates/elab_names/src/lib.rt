//! What names mean in expressions, constants and calls, and what is told to a body.
#![tactic(auto)]

mod bodies;
mod names;
mod scope;
mod told;

pub use bodies::body_reached;
pub use names::{
    all_copied, called, callee, const_of, constant_named, counted, literal, named, port, posted,
    read_from, same_count, written,
};
pub use scope::look_up;
pub use told::{count_of, item_named, unique_at};
