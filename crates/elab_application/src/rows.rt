//! Worked rows of what elaboration is given.

ghost use Rattle.elab_application.specs.Rows.{EndRows, GivenRows, ValueRows};

/// These wirings reach these ends, these values get ends of their own, and these parameters stand for this, as was worked out by hand.
pub fn worked_rows()
    ensures ends { EndRows }
    ensures values { ValueRows }
    ensures given { GivenRows }
{}
