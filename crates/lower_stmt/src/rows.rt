//! Worked examples, by computation.

ghost use Rattle.lower_stmt.specs.Rows.{WorkedRows};

/// What the code of some bodies does in the open machine, as gone through by hand.
pub fn worked_rows()
    ensures { WorkedRows }
{}
