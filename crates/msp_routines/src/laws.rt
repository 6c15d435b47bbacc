//! Where routines stand in a program.

ghost use Rattle.msp_routines.specs.Laws.{RoutinesCallNothing, RoutinesCanBeLaidOut, RoutinesStand};

/// Behind the functions of a program, the routine of each helper stands at the place that selected code calls, and does what the
/// helper does.
pub fn routines_stand()
    ensures { RoutinesStand }
{}

/// Routines are code that can be laid out: instructions have words, each label stands once, and they are not too long.
pub fn routines_can_be_laid_out()
    ensures { RoutinesCanBeLaidOut }
{}

/// Routines call no function.
pub fn routines_call_nothing()
    ensures { RoutinesCallNothing }
{}
