//! Laws of the sizes of images of programs with tasks.

ghost use Rattle.task_sizes.specs.Laws.{CodeIsWithinWeight, DataIsWithinWeight, MemoryIsWithinWeights, StackIsWithinWeight};

use kernel_laws::each_frame_grows_little;

/// The bytes of the code are at most the code weight of the program that has the tasks: a post as a call takes no more than the 96 bytes of its node, the
/// loop's choice of a task what its body leaves, and the loop, the kernel's two bodies, the operations and the lines 4,000.
pub fn task_code_is_within_weight()
    ensures { CodeIsWithinWeight }
{}

/// The stack of the image is at most the stack weight of the program that has the tasks: what frames leave is more than posts add to them, and what the
/// kernel's two bodies take is left of the 400 bytes.
pub fn task_stack_is_within_weight()
    ensures { StackIsWithinWeight }
{
    each_frame_grows_little();
}

/// The bytes of data are at most the data weight, which has room for the kernel's bytes.
pub fn task_data_is_within_weight()
    ensures { DataIsWithinWeight }
{}

/// Data and stack are too large only where the two weights do not fit the memory, and what they need is at most the weights.
pub fn task_memory_is_within_weights()
    ensures { MemoryIsWithinWeights }
{
    each_frame_grows_little();
}
