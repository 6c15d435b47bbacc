//! The emitter of statements and bodies: a wired program written as middle code.
#![tactic(auto)]

mod bodies;
mod cases;
mod checks;
mod given;
mod leads;
mod levels;
mod locals;
mod lowering;
mod put;
mod spots;
mod statements;
mod turns;
mod ways;

pub use lowering::lower;
