//! Worked rows of what is told.

ghost use Rattle.wire_facts.specs.Rows.{BracketRows, ArgumentRows};

/// This is told of these applications, worked out by hand.
pub fn worked_rows()
    ensures brackets { BracketRows }
    ensures arguments { ArgumentRows }
{}
