//! Worked rows of the preprocessor.

ghost use Rattle.nesc_preproc.specs.Rows.{WorkedRows};

/// The definition of expansion gives these files these tokens, counts and refusals.
pub fn worked_rows()
    ensures { WorkedRows }
{}
