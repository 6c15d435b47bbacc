//! Worked examples, by computation.

ghost use Rattle.lean_pace.specs.Rows.{WorkedRows};

/// What silent steps of some bodies run, and what their bounds are, counted by hand.
pub fn worked_rows()
    ensures { WorkedRows }
{}
