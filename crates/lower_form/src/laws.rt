//! The rules of form of lowered programs.

ghost use Rattle.lower_form.specs.Instructions.{CodeIsSmall, InstructionsAreSound};
ghost use Rattle.lower_form.specs.Laws.{FormIsKept, NumbersAreSmall};

/// The middle code of a well-formed program that is short keeps the rules of form: each function names its own values and labels, a
/// Call names a function that is there, with as many values as it takes and gives, a Help an operation or a check that is there, with
/// as many values as that takes and gives, each function gives back as many values at each of its Rets, at most two, and code ends
/// elsewhere and is shorter than 2^32.
pub fn form_is_kept()
    ensures { FormIsKept }
{}

/// In a program that is short the labels of each body and the checks are numbers of 32 bits.
pub fn numbers_are_small()
    ensures { NumbersAreSmall }
{}

/// In the code of a well-formed program each number is one of its word, each port is one of the interrupt controller or of a device, and
/// a status is saved at an even place inside of the frame.
pub fn instructions_are_sound()
    ensures { InstructionsAreSound }
{}

/// In the code of a well-formed program that is short, a frame and two bytes for each value are at most 10,240 bytes, and the numbers of
/// functions, operations and checks are numbers of 32 bits.
pub fn code_is_small()
    ensures { CodeIsSmall }
{}
