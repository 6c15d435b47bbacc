//! What a step shows, by its accesses.

ghost use Rattle.mote_bus.specs.Laws.{StepsShowAccesses};

/// A step on this bus is a step on ports that show their events: the words that were read and written at ports, in
/// their order, and the entry behind an acceptance.
pub fn steps_show_accesses()
    ensures { StepsShowAccesses }
{}
