//! Worked rows of the jumps.

ghost use Rattle.msp_layout.specs.Rows.{WorkedRows};

/// How far a jump of one word leads, its words, and those of the longer forms.
pub fn worked_rows()
    ensures { WorkedRows }
{}
