//! Worked rows of wired statements.

ghost use Rattle.body_meaning.specs.StmtRows.{RefusedStmts, StmtRows};

/// These statements are wired as C and nesC say, and others are refused at these places.
pub fn worked_rows()
    ensures wired { StmtRows }
    ensures refused { RefusedStmts }
{}
