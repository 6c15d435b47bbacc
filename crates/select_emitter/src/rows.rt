//! Worked rows of selection.

ghost use Rattle.select_emitter.specs.Rows.{WorkedRows};

/// The code of a program with each instruction, item by item as gone through by hand.
pub fn worked_rows()
    ensures { WorkedRows }
{}
