//! Worked examples, by computation.

ghost use Rattle.lower_pace.specs.Rows.{WorkedRows};

/// What silent steps of some bodies run, counted by hand.
pub fn worked_rows()
    ensures { WorkedRows }
{}
