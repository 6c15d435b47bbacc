//! Selected code of a lowered program keeps to half of the program's pace.

ghost use Rattle.lower_pace.specs.Pace.{LoweredCodeIsPaced, LoweredCodeIsWeighed, SelectedCodeKeepsPace};

/// The instructions that silent steps run from a state on, up to the next action, are a weight of lowered code, for routines of as many
/// instructions as the pace affords.
pub fn lowered_code_is_weighed()
    ensures { LoweredCodeIsWeighed }
{}

/// Each silent step of lowered code leaves fewer of them up to the next action.
pub fn lowered_code_is_paced()
    ensures { LoweredCodeIsPaced }
{}

/// Selected code of a lowered program meets the open law with a bound that, with room for the code around it, is at most half of the
/// program's pace.
pub fn selected_code_keeps_pace()
    ensures { SelectedCodeKeepsPace }
{}
