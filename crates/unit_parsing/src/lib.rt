//! The parser of the files of an application: declarations, components and interfaces as the grammar spells them.
#![tactic(auto)]

mod grammar;

pub use grammar::Grammar;
