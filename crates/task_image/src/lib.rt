//! Images of nesC programs with tasks: the mote does what the source does.
#![tactic(auto)]

mod law;

pub use law::{lean_images_run, task_code_stands, task_images_run};
