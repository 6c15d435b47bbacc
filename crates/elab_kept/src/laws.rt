//! Laws of what elaboration keeps.

ghost use Rattle.elab_kept.specs.Grows.{ElaborationGrows};

/// What was in force before an expression, a constant or a type is in force behind it, in the same scope.
pub fn elaboration_grows()
    ensures { ElaborationGrows }
{}
