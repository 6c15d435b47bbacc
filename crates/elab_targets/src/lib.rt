//! The numbers of functions, tasks and items by name, and the bodies that the wires reach.
#![tactic(auto)]

mod application;
mod cases;
mod definitions;
mod firsts;
mod items;
mod numbers;
mod places;
mod tables;
mod tasks;
mod used;

pub use application::{Application, Argument, Element, Given, Instance, Wired};
pub use cases::{cases_of, one_target};
pub use places::Places;
pub use tables::{Tables, tables_of};
pub use tasks::tasks_of;
pub use used::Used;
