//! What modules lack: the items of elements that they do not implement, and the calls and signals that reach nothing and have no default.
#![tactic(auto)]

mod all_unwired;
mod calls;
mod elements;
mod expressions;
mod functions;
mod initialisers;
mod items;
mod search;
mod statements;
mod variables;
mod walk;

pub use all_unwired::unwired;
pub use elements::{Element, Reaches};
