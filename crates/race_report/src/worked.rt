//! Worked rows of the report.

ghost use Rattle.race_report.specs.Worked.{WorkedRows};

/// Fields, arrays through pointers, reads alone, `norace`, and a body that is called twice.
pub fn worked_rows()
    ensures { WorkedRows }
{}
