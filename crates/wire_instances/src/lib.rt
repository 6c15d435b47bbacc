//! The instances of an application, in the order of their creation.
#![tactic(auto)]

mod creation;
mod naming;
mod plan;
mod rows;

pub use creation::instances;
pub use naming::Stop;
pub use plan::{Line, Made, Maker, Plan, Unmet};
pub use rows::worked_rows;
