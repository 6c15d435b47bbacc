//! Worked rows of the words of trees.

ghost use Rattle.nesc_print_words.specs.Rows.{WorkedRows};

/// These trees have these words, worked out by hand.
pub fn worked_rows()
    ensures { WorkedRows }
{}
