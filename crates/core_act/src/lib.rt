//! What a body of the source does, computed.
#![tactic(auto)]

mod access;
mod actions;
mod calls;
mod cases;
mod changes;
mod choose;
mod flow;
mod given;
mod law;
mod locals;
mod log;
mod machine;
mod open;
mod operate;
mod places;
mod reach;
mod run;
mod scope;
mod stack;
mod task;
mod turns;

pub use actions::{Performance, act, performed};
pub use law::actions_grow;
