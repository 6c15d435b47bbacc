//! Worked examples, by computation.

ghost use Rattle.mid_code.specs.Rows.{WorkedRows};

/// What operations, helpers and a program do, as gone through by hand.
pub fn worked_rows()
    ensures { WorkedRows }
{}
