//! Worked examples, by computation.

ghost use Rattle.combine_fanout.specs.Rows.{WorkedRows};

/// What some dispatch functions do, as gone through by hand.
pub fn worked_rows()
    ensures { WorkedRows }
{}
