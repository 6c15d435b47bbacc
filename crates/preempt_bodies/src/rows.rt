//! Worked rows of interrupts in nested atomic statements, by computation.

ghost use Rattle.preempt_bodies.specs.Rows.{Rows};

/// A handler runs before or behind the whole statement, whichever slot a byte comes in; the registers stay, and the mote sleeps again.
pub fn worked_rows()
    ensures { Rows }
{}
