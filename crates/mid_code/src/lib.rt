//! The middle code of bodies, and the open machine that runs it one instruction after another.
#![tactic(auto)]

mod code;
mod help;
mod instr;
mod machine;
mod rows;
mod state;

pub use code::{Check, MidCode, MidFn};
pub use help::{FIRST_CHECK, HelpOp, help_number};
pub use instr::{Mid, Op, Test};
pub use machine::{open_start, open_step};
pub use nm_base::Action;
pub use rows::worked_rows;
pub use state::{MidCall, MidState};
