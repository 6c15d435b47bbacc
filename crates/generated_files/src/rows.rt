//! Examples of the generated files, proved by computation.

ghost use Rattle.generated_files.specs.Rows.{FileRows, ScheduleRows};

/// The files of one module and of two, a name and lines of sixty, and the schedule.
pub fn worked_rows()
    ensures files { FileRows }
    ensures schedule { ScheduleRows }
{}
