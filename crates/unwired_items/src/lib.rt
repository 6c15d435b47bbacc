//! What the instances of an application lack: items that their modules must implement, and calls and signals that reach nothing.
#![tactic(auto)]

mod elements;
mod ends;
mod instances;
mod items;

pub use items::refuse_unwired;
