//! Worked rows of the texts of images and schedules.

ghost use Rattle.mote_text.specs.TextRows.{ImageRows, ScheduleRows};

/// The grammars read these texts so.
pub fn worked_rows()
    ensures images { ImageRows }
    ensures schedules { ScheduleRows }
{}
