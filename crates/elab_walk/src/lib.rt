//! The walk over the declarations of headers and modules, in the order of the text.
#![tactic(auto)]

mod asking;
mod bodies;
mod functions;
mod variables;
mod walk;

pub use walk::{declaration, declarations};
