//! What the image of a program with tasks takes of the memory, beside the program's weights.
#![tactic(auto)]

mod laws;

pub use laws::{
    task_code_is_within_weight, task_data_is_within_weight, task_memory_is_within_weights,
    task_stack_is_within_weight,
};
