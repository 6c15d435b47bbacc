//! Worked rows of lexing.

ghost use Rattle.nesc_tokens.specs.Rows.{WorkedRows};

/// The definition of lexing gives these texts these tokens and refusals.
pub fn worked_rows()
    ensures { WorkedRows }
{}
