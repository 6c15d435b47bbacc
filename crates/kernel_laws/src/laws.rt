//! Laws of the kernel's program.

ghost use Rattle.kernel_laws.specs.Laws.{EachFrameGrowsLittle, KernelHasNoCycle, TasklessBodiesStay};

/// The calls of the kernel's program have no cycle where those of the program have none.
pub fn kernel_has_no_cycle()
    ensures { KernelHasNoCycle }
{}

/// Each frame of the program grows by at most 4 bytes, and those of the two new bodies take at most 100.
pub fn each_frame_grows_little()
    ensures { EachFrameGrowsLittle }
{}

/// Without tasks a well-formed program keeps its bodies.
pub fn taskless_bodies_stay()
    ensures { TasklessBodiesStay }
{}
