//! Worked rows of applications.

ghost use Rattle.nesc_tree.specs.declared.tree.TypeSpec.{TypeSpec as TypeSpecOf};
ghost use Rattle.wire_phases.specs.Rows.{PhaseRows, CreationRows, WireRows, FactRows, BlinkRows};

/// These applications are refused as their rows say, worked out by hand.
pub fn worked_rows()
    ensures phases { PhaseRows }
    ensures creation { CreationRows }
    ensures wires { WireRows }
    ensures facts { FactRows }
    ensures copies { (t : TypeSpecOf) → BlinkRows t }
{}
