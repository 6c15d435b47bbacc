//! Rows of what routines do.

ghost use Rattle.msp_runtime.specs.Rows.{WorkedRows};

/// Products, quotients, remainders and shifts at values where they differ.
pub fn worked_rows()
    ensures { WorkedRows }
{}
