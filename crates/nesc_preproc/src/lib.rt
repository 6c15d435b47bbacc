//! The preprocessor: directives, included files and macros.
#![tactic(auto)]

mod built_in;
mod conditional;
mod context;
mod definitions;
mod directive;
mod expansion;
mod file_name;
mod file_table;
mod file_text;
mod groups;
mod known;
mod laws;
mod lines;
mod obey;
mod reading;
mod rows;
mod scan;
mod sources;

pub use expansion::expand;
pub use laws::one_expansion;
pub use reading::Reading;
pub use rows::worked_rows;
