//! Rows of what checks tell.

ghost use Rattle.msp_checks.specs.Rows.{WorkedRows};

/// Checks of no run, of one, and of several, at addresses where they differ.
pub fn worked_rows()
    ensures { WorkedRows }
{}
