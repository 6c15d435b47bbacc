//! What elaboration is given: the declarations, the instances and the wires of an application that is wired.
#![tactic(auto)]

mod arguments;
mod components;
mod counts;
mod elements;
mod ends;
mod given;
mod ground;
mod headers;
mod instances;
mod interfaces;
mod routes;
mod rows;
mod seen;
mod structs;

pub use given::{application, seen_before};
pub use rows::worked_rows;
pub use seen::{EarlyEnvs, early_envs, env_of};
pub use structs::header_work;
