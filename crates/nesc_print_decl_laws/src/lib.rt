//! The words that are printed for declarations outside of blocks spell them again, up to places.
#![tactic(auto)]

mod laws;

pub use laws::{
    attributes_are_read_again, declaration_lists_are_read_again, declarations_are_read_again,
};
