//! The code of a program's image: it can be laid out, and where it is, the mote does what the program does.
#![tactic(auto)]

mod laws;

pub use laws::{code_can_be_laid, laid_code_runs};
