//! Arithmetic of the core language at each integer type.
#![tactic(auto)]

mod arithmetic;

pub use arithmetic::{
    binary, bits_of, distance, is_zero, low_byte, offset, truth, unary, without_low_byte, word_of,
};
