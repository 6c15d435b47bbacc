//! Worked rows of creation.

ghost use Rattle.wire_instances.specs.Rows.{WorkedRows};

/// The definition of creation gives these components these instances and refusals, worked out by hand.
pub fn worked_rows()
    ensures { WorkedRows }
{}
