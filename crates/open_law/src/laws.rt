//! What is so of all code that meets the open law.

ghost use Rattle.open_law.specs.Laws.{FunctionsAreBodies, LoneReturnIsOpen, WiderIsMet};

/// A body that meets the law meets it with every larger bound, and where more stack is left to it.
pub fn wider_is_met()
    ensures { WiderIsMet }
{}

/// The law of a function is that of a body.
pub fn functions_are_bodies()
    ensures { FunctionsAreBodies }
{}

/// The least code that meets the law: a lone RET.
pub fn lone_return_is_open()
    ensures { LoneReturnIsOpen }
{}
