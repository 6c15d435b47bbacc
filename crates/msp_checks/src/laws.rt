//! Where checks stand, they do what the helpers of compiled code do.

ghost use Rattle.msp_checks.specs.Laws.{ChecksAreRoutines, ChecksAreShort};

/// Where the code of a check is laid out, the law of selected code has the routine that it asks for: it returns where the pointer
/// is the address of a part, and raises fault 2 where it is none.
pub fn checks_are_routines()
    ensures { ChecksAreRoutines }
{}

/// A check takes at most 178 instructions and 8 for each run, and 4 bytes of stack, its return address included.
pub fn checks_are_short()
    ensures { ChecksAreShort }
{}
