//! Operands of expressions made of their parts, and the operators that bind them.
#![tactic(auto)]

mod boxes;
pub mod growths;
pub mod operands;
pub mod operators;
pub mod precedence;
