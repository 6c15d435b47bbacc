//! Bodies lowered to middle code.
#![tactic(auto)]

mod laws;
mod rows;

pub use laws::{
    behaves_on, calls_own, calls_run, frames_fit, functions_formed, labels_found, roots_behave,
    statements_run,
};
pub use rows::worked_rows;
