//! The code of the image of a program with tasks: it can be laid out, and where it is, the mote does what the program does.
#![tactic(auto)]

mod laws;

pub use laws::{laid_task_code_runs, task_code_can_be_laid};
