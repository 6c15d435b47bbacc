//! Where routines stand, they do what the helpers of compiled code give.

ghost use Rattle.msp_runtime.specs.Laws.{RoutinesAreRoutines, RoutinesAreShort};

/// Where the code of a number's operation is laid out, the law of selected code has the routine that it asks for.
pub fn routines_are_routines()
    ensures { RoutinesAreRoutines }
{}

/// A routine takes at most 600 instructions and 60 bytes of stack, its return and its return address included.
pub fn routines_are_short()
    ensures { RoutinesAreShort }
{}
