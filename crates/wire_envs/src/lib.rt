//! What is told of `unique` to headers and to each instance.
#![tactic(auto)]

mod application;
mod told;

pub use application::{Envs, envs_of};
