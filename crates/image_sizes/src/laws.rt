//! Laws of the sizes of images.

ghost use Rattle.image_sizes.specs.Laws.{CodeIsWithinWeight, DataIsWithinWeight, MemoryIsWithinWeights, StackIsWithinWeight};

/// The bytes of the code are at most the code weight, where no call is inlined and no switch has more cases than statements that clear
/// no local: functions take 96 bytes for each node, checks 24 for each range beside what dereferences leave, and 48 operations, reset
/// and the lines 4,000.
pub fn code_is_within_weight()
    ensures { CodeIsWithinWeight }
{}

/// The stack of a program's image is at most the program's stack weight: along each chain of calls the functions hold less than the
/// frames of their bodies weigh, and reset, a line and the routines at the two ends take less than 400 bytes.
pub fn stack_is_within_weight()
    ensures { StackIsWithinWeight }
{}

/// The bytes of data are at most the data weight.
pub fn data_is_within_weight()
    ensures { DataIsWithinWeight }
{}

/// Data and stack are too large only where the two weights do not fit the memory, and what they need is at most the weights.
pub fn memory_is_within_weights()
    ensures { MemoryIsWithinWeights }
{}
