//! The top call: from the words of a command line to what is written.
#![tactic(auto)]

mod answer;
mod compile;
mod faults;
mod files;
mod generated;
mod laws;
mod prepared;
mod report;
mod source;
mod status;
mod subject;
mod top_call;

pub use laws::{generated_image_runs_its_source, printed_image_runs_its_source};
pub use status::Status;
pub use top_call::tool;
