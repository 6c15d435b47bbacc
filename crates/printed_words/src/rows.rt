//! Worked rows of printed words.

ghost use Rattle.printed_words.specs.Rows.{WorkedRows};

/// Which words may touch.
pub fn worked_rows()
    ensures { WorkedRows }
{}
