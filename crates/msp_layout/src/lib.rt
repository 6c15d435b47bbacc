//! Places of code in an image: the forms of jumps, addresses, vectors, and the bound of the stack.
#![tactic(auto)]

mod depth;
mod form;
mod image;
mod labels;
mod laws;
mod rows;
mod sizes;
mod stack;
mod top;
mod words;

pub use laws::{functions_stand_apart, stack_holds_depths};
pub use msp_isa::Image;
pub use rows::worked_rows;
pub use top::layout;
