//! Printed files are parsed again: the parser gives the same tree up to places, unless it is too deep or memory runs out.
#![tactic(auto)]

mod laws;

pub use laws::printed_files_are_parsed_again;
