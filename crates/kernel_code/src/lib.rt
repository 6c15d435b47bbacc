//! The kernel of a program: its posts are calls, its pending tasks a list in bytes.
#![tactic(auto)]

mod bodies;
mod fitting;
mod forms;
mod layouts;
mod object;
mod pop;
mod program;
mod queue;
mod queued;
mod room;
mod structs;

pub use program::kernel;
pub use queued::{NoKernel, Queued};
