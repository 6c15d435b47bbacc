//! The law: loop runs of a kernel's program are runs of the source, at the source's pace.

ghost use Rattle.task_runs.specs.Law.{LoopsRunAsSource};

/// A mote whose image has the loop of tasks and the code of a kernel of the source does what the source's program may do, on every board, with every schedule, after every
/// number of slots, where the pace holds a move of the source with the kernel's moves behind it; its stack stays within the sum of the depths.
pub fn loops_run_as_source()
    ensures { LoopsRunAsSource }
{}
