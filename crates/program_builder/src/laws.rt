//! Laws of the sizes of images, with tasks or without.

ghost use Rattle.program_builder.specs.Built.{CodeIsWithinWeight, MemoryIsWithinWeights, StackIsWithinWeight};

use image_sizes as plain;
use task_sizes::{
    task_code_is_within_weight, task_memory_is_within_weights, task_stack_is_within_weight,
};

/// The bytes of the code are at most the code weight.
pub fn code_is_within_weight()
    ensures { CodeIsWithinWeight }
{
    plain::code_is_within_weight();
    task_code_is_within_weight();
}

/// The stack of a program's image is at most the program's stack weight.
pub fn stack_is_within_weight()
    ensures { StackIsWithinWeight }
{
    plain::stack_is_within_weight();
    task_stack_is_within_weight();
}

/// Data and stack are too large only where the two weights do not fit the memory, and what they need is at most the weights.
pub fn memory_is_within_weights()
    ensures { MemoryIsWithinWeights }
{
    plain::memory_is_within_weights();
    task_memory_is_within_weights();
}
