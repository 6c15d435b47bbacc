//! Worked rows of `unique`.

ghost use Rattle.nesc_tree.specs.declared.tree.TypeSpec.{TypeSpec as TypeOf};
ghost use Rattle.wire_uniques.specs.Rows.{WorkedRows};

/// These uses have these constants, worked out by hand, whatever type stands in the application.
pub fn worked_rows()
    ensures { (t : TypeOf) → WorkedRows t }
{}
