//! What holds of selected functions.

ghost use Rattle.select_emitter.specs.Laws.{CallsStay, FramesAreBounded, ItemsAreWritten, LinksStay};

/// What a function holds on the stack is at most its frame and two bytes for each value, rounded up to an even number, and at most
/// its own bytes and two for each parameter.
pub fn frames_are_bounded()
    ensures { FramesAreBounded }
{}

/// A function calls the functions that its middle code calls, and the routines of its helpers.
pub fn calls_stay()
    ensures { CallsStay }
{}

/// Each instruction among the items of a function is a written form, so that it has words.
pub fn items_are_written()
    ensures { ItemsAreWritten }
{}

/// A function has the labels, jumps and calls of its middle code, in order, and no others.
pub fn links_stay()
    ensures { LinksStay }
{}
