//! Printed texts read back.

ghost use Rattle.mote_text.specs.ImageLines.{ImageReadsBack};
ghost use Rattle.mote_text.specs.ScheduleText.{ScheduleReadsBack, SchedulesAreOfWords};
ghost use Rattle.mote_text.specs.TraceWords.{LineTellsEvent};

/// A printed image reads back to its map.
#[tactic(auto, using(crate::proofs::ImageBack::reads_back))]
pub fn image_reads_back()
    ensures { ImageReadsBack }
{}

/// A printed schedule reads back to its rows.
#[tactic(auto, using(crate::proofs::ScheduleBack::reads_back))]
pub fn schedule_reads_back()
    ensures { ScheduleReadsBack }
{}

/// The values of the rows that a text names are words.
#[tactic(auto, using(crate::proofs::ScheduleWords::of_words))]
pub fn schedules_are_of_words()
    ensures { SchedulesAreOfWords }
{}

/// Two events that print alike are one.
pub fn line_tells_event()
    ensures { LineTellsEvent }
{}
