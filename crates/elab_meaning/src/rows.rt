//! Worked rows of wired expressions, constants and types.

ghost use Rattle.elab_meaning.specs.NumberRows.{NumberRows};
ghost use Rattle.elab_meaning.specs.PlaceRows.{PlaceRows};
ghost use Rattle.elab_meaning.specs.RefusalRows.{RefusalRows};
ghost use Rattle.elab_meaning.specs.TypeRows.{TypeRows};
ghost use Rattle.elab_meaning.specs.ValueRows.{ValueRows};

/// These expressions, constants and types are wired as C and nesC say, and others are refused at these places.
pub fn worked_rows()
    ensures values { ValueRows }
    ensures places { PlaceRows }
    ensures types { TypeRows }
    ensures numbers { NumberRows }
    ensures refusals { RefusalRows }
{}
