//! What the image of a program takes of the memory, beside the program's weights.
#![tactic(auto)]

mod laws;

pub use laws::{
    code_is_within_weight, data_is_within_weight, memory_is_within_weights, stack_is_within_weight,
};
