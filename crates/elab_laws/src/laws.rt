//! Laws of elaboration.

ghost use Rattle.elab_laws.specs.WellFormed.{ElaborationIsWellFormed};
ghost use Rattle.elab_laws.specs.WorkedState.{WorkedState};

/// What elaboration gives is well formed, and has the type that its rule gives.
pub fn elaboration_is_well_formed()
    ensures { ElaborationIsWellFormed }
{}

/// The state of the worked rows keeps what the law asks of states, and belongs to a program.
pub fn worked_state()
    ensures { WorkedState }
{}
