//! Worked examples, by computation.

ghost use Rattle.task_queue.specs.Rows.{WorkedRows};

/// What a kernel of three tasks does, as gone through by hand.
pub fn worked_rows()
    ensures { WorkedRows }
{}
