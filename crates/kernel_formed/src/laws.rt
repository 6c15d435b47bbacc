//! The law of well-formed kernels.

ghost use Rattle.kernel_formed.specs.Laws.{KernelIsWellFormed};

/// The kernel of a well-formed program that has one is well formed, where each frame of the program may take 4 bytes more: a post, as a call,
/// may take one level of expressions more.
pub fn kernel_is_well_formed()
    ensures { KernelIsWellFormed }
{}
