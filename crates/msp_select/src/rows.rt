//! Worked rows of selection.

ghost use Rattle.msp_select.specs.Rows.{WorkedRows};

/// What instructions of the middle code become, word by word as gone through by hand.
pub fn worked_rows()
    ensures { WorkedRows }
{}
