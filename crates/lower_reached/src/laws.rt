//! The rules of reached states that lowered programs keep.

ghost use Rattle.lower_reached.specs.Laws.{AccessesAreLeft, AccessesStay, ActionsAreDone, DivisorsAreOther, StatementsNest};

/// In each state that the machine reaches in the code of a well-formed program, from the start of any function and whatever it is
/// answered: a Begin saves the status at an even place inside the frame, apart from those that are open, an End closes the last open
/// Begin, no Begin is open at a Ret, and ports are those of the interrupt controller or of a device.
pub fn statements_nest()
    ensures { StatementsNest }
{}

/// In each such state the divisor of a Help that divides is not 0: the code tests it in front, and faults, and the size of what two
/// pointers point to is not 0.
pub fn divisors_are_other()
    ensures { DivisorsAreOther }
{}

/// What the machine does in a state that it reaches in the function of a body without parameters, of a well-formed program without a
/// cycle of calls, is among the actions that the body does, for some answers and some turns of its loops.
pub fn actions_are_done()
    ensures { ActionsAreDone }
{}

/// Of a body without parameters: where each Load and Store that the body does is to data, so is each that its function does in a state
/// that the machine reaches.
pub fn accesses_stay()
    ensures { AccessesStay }
{}

/// The code of a well-formed program without a cycle of calls keeps all rules of reached states, where its bodies load and store data
/// alone, and its functions keep the rules of Peeks and Pokes.
pub fn accesses_are_left()
    ensures { AccessesAreLeft }
{}
