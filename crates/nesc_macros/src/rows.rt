//! Worked rows of macro expansion.

ghost use Rattle.nesc_macros.specs.Rows.{WorkedRows};

/// The definition of expansion gives these lists these tokens and counts.
pub fn worked_rows()
    ensures { WorkedRows }
{}
