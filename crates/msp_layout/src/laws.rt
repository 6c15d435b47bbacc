//! Laws of laid out code.

ghost use Rattle.msp_layout.specs.Deep.{StackHoldsDepths};
ghost use Rattle.msp_layout.specs.Order.{FunctionsStandApart};

/// Where functions stand one behind another, no item of a function stands in front of one of an earlier function.
pub fn functions_stand_apart()
    ensures { FunctionsStandApart }
{}

/// Without a cycle of calls each function has a depth: no less than its frame, nor than that, two bytes and the depth of a function
/// that it calls; and the stack holds the depth of reset with that of any line.
pub fn stack_holds_depths()
    ensures { StackHoldsDepths }
{}
