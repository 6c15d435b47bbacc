//! What creation sees of the files of an application: the parameters, specifications and lines of its components.
#![tactic(auto)]

mod application;
mod block;
mod face;
mod head;
mod line;
mod loaded;
mod numbers;
mod plan;
mod rows;
mod scope;
mod table;
mod types;

pub use application::instances;
pub use loaded::Loaded;
pub use rows::worked_rows;
