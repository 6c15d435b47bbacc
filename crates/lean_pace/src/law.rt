//! Selected code of a lean program runs few instructions between two actions.

ghost use Rattle.lean_pace.specs.Pace.{KernelIsLean, KernelKeepsPace, LeanCodeIsWeighed, LeanCodeKeepsPace, LeanIsMeasured};

/// A lean program is measured, so the steps of its lowered code come to an end.
pub fn lean_is_measured()
    ensures { LeanIsMeasured }
{}

/// The instructions that silent steps run from a state on, up to the next action, are a weight of a lean program's lowered code, and are
/// bounded by one body.
pub fn lean_code_is_weighed()
    ensures { LeanCodeIsWeighed }
{}

/// Selected code of a lean program meets the open law with this bound of instructions between two actions.
pub fn lean_code_keeps_pace()
    ensures { LeanCodeKeepsPace }
{}

/// The kernel's program of a lean program is lean.
pub fn kernel_is_lean()
    ensures { KernelIsLean }
{}

/// Eleven such bounds of the kernel's program keep to the pace of the program that it was made of.
pub fn kernel_keeps_pace()
    ensures { KernelKeepsPace }
{}
