//! The command line: which words are in use, and what they ask for.
#![tactic(auto)]

mod asked;
mod command;
mod laws;
mod mode;
mod rows;
mod subject;
mod texts;

pub use asked::{Asked, Request, WordsFault};
pub use command::asked_by;
pub use laws::one_answer;
pub use mode::Mode;
pub use rows::worked_rows;
pub use subject::modules_of;
pub use texts::{HELP, VERSION};
