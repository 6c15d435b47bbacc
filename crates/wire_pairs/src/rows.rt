//! Worked rows of pairs.

ghost use Rattle.wire_pairs.specs.Rows.{LinkedRows, RefusedRows, InstanceRows};

/// These applications have these pairs or refusals, worked out by hand.
pub fn worked_rows()
    ensures linked { LinkedRows }
    ensures refused { RefusedRows }
    ensures instances { InstanceRows }
{}
