//! The law: an image with the loop of tasks, whose bodies meet the open law, runs as loop runs of the kernel's program.

ghost use Rattle.preempt_tasks.specs.Example.{IdleLoopRuns};
ghost use Rattle.preempt_tasks.specs.Laid.{LaidLoopsAreBuilt};
ghost use Rattle.preempt_tasks.specs.Law.{RunsAsLoop};

/// A mote with such an image does what a loop run of the program does, on every board, with every schedule, after every number of slots: it sleeps only where no task was
/// found and no handler came since, and its stack stays within the sum of the depths.
pub fn runs_as_loop()
    ensures { RunsAsLoop }
{}

/// The law's premises can be met: the image with one task, whose bodies do nothing, does what a loop run does.
pub fn idle_loop_runs()
    ensures { IdleLoopRuns }
{}

/// Where the code of reset and of the lines is laid out with the items of the loop, the image has the loop of tasks.
pub fn laid_loops_are_built()
    ensures { LaidLoopsAreBuilt }
{}
