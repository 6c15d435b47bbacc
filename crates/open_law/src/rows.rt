//! Worked rows of the open machine.

ghost use Rattle.open_law.specs.Rows.{Rows};

/// A word below SP is lost and one on the stack stays; ports answer; nothing follows a fault; and when the gate is shut.
pub fn worked_rows()
    ensures rows { Rows }
{}
