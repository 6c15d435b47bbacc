//! What the code of statements and bodies does.

ghost use Rattle.lower_stmt.specs.Bounds.{EachCallsItsOwn, EachIsMidFn, EachIsWithin};
ghost use Rattle.lower_stmt.specs.Correct.{AllCallsRun, BehavesOn, EachIsLabelled, EachRootBehaves};
ghost use Rattle.lower_stmt.specs.Runs.{StatementsRun};

/// From wherever the code of a statement stands, with values that hold the locals, the machine does exactly what the statement does
/// in the source, for every list of answers, and goes on from where the statement is left: behind it, or at the exit of its loop, its
/// switch or its body, behind the End of each atomic statement on the way.
pub fn statements_run()
    ensures { StatementsRun }
{}

/// No label stands twice in a function of a lowered program, so a jump leads to where its label stands.
pub fn labels_found()
    ensures { EachIsLabelled }
{}

/// In the functions of a well-formed program whose calls have no cycle, a call does what the body called does and gives back its
/// result, over any other calls.
pub fn calls_run()
    ensures { AllCallsRun }
{}

/// From the start of the function of a body without parameters the machine does exactly what the body does, those of the bodies that
/// it calls among them, in order, for every list of answers, and gives back its result: what the body does in some number of turns the
/// machine does in some number of steps, and what the machine does in any number of steps is what the body does, or the beginning of it.
pub fn roots_behave()
    ensures { EachRootBehaves }
{}

/// What behaves as something that behaves as a third behaves as the third.
pub fn behaves_on()
    ensures { BehavesOn }
{}

/// A function's frame is even, and with two bytes for each value it is at most the weight of its body's frame less 24.
pub fn frames_fit()
    ensures { EachIsWithin }
{}

/// A function calls the functions of those bodies alone that its body calls.
pub fn calls_own()
    ensures { EachCallsItsOwn }
{}

/// The function of a body keeps the rules of form of middle code: each instruction names values of the function, and labels that stand
/// in its code; no label stands twice.
pub fn functions_formed()
    ensures { EachIsMidFn }
{}
