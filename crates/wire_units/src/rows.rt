//! Worked rows of applications.

ghost use Rattle.nesc_tree.specs.declared.tree.TypeSpec.{TypeSpec as TypeOf};
ghost use Rattle.wire_units.specs.Rows.{WorkedRows};

/// These applications have these instances or refusals, worked out by hand, whatever type stands in them.
pub fn worked_rows()
    ensures { (t : TypeOf) → WorkedRows t }
{}
