//! The words that are printed for files spell them again, up to places, and so do the tokens of their texts.
#![tactic(auto)]

mod laws;

pub use laws::{
    components_are_read_again, interfaces_are_read_again, parts_are_read_again,
    printed_files_are_read_again,
};
