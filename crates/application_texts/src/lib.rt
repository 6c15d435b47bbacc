//! Applications as lines of text, and their refusals as the tool prints them.
#![tactic(auto)]

mod application;
mod refusals;

pub use application::{Application, application_of};
pub use refusals::{put_fault, put_place};
