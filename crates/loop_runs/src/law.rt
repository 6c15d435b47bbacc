//! From loop runs of a kernel's program to runs of the source.

ghost use Rattle.loop_runs.specs.Example.{OneKernel};
ghost use Rattle.loop_runs.specs.Law.{LoopRuns};
ghost use Rattle.loop_runs.specs.Steps.{LoopsAreFollowed};

/// Where a kernel keeps its contract, each loop run of its program is a run of the source that shows the same, on the same board. Bytes other than the
/// queue's are the same; the queue's bytes stand for the source's list of tasks wherever no atomic statement is open; where `pop` gave 255 and no
/// handler came since, the source has nothing to do.
pub fn loop_runs()
    ensures { LoopRuns }
{}

/// Move by move: each move of a loop run is at most one move of the source, those in a row that are none are few, and the source completes no more effects
/// of its base than the kernel's program does.
pub fn loops_are_followed()
    ensures { LoopsAreFollowed }
{}

/// The contract can be met: a queue of one byte, for a source with one task.
pub fn one_kernel()
    ensures { OneKernel }
{}
