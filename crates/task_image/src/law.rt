//! From nesC programs with tasks to runs of the mote.

ghost use Rattle.task_image.specs.Lean.{LeanImagesRun};
ghost use Rattle.task_image.specs.Order.{TaskCodeStands};
ghost use Rattle.task_image.specs.Runs.{TaskImagesRun};

use kernel_contract::each_kernel_keeps;
use kernel_laws::kernel_has_no_cycle;
use lean_pace::{kernel_is_lean, kernel_keeps_pace, lean_code_keeps_pace, lean_is_measured};
use lower_stmt::roots_behave;
use open_law::functions_are_bodies;
use postless_code::kernels_post_nothing;
use preempt_tasks::laid_loops_are_built;
use program_image::{behaviour_keeps_functions, lines_are_laid, lowered_code_is_selected};
use task_runs::loops_run_as_source;

/// Functions of a kernel's bodies, routines, a lone RET, the loop of tasks and the lines, laid out in this order, with vectors that lead to reset and to
/// the lines, are the image of a program with tasks.
pub fn task_code_stands()
    ensures { TaskCodeStands }
{}

/// With the image of the kernel of a program, with the loop of tasks, the mote does what the program does, at its pace: on every board whose registers
/// hold words, with every schedule of words, after every number of slots; and its stack stays within its bound.
pub fn task_images_run()
    ensures { TaskImagesRun }
{
    each_kernel_keeps();
    kernel_has_no_cycle();
    kernels_post_nothing();
    lowered_code_is_selected();
    roots_behave();
    behaviour_keeps_functions();
    functions_are_bodies();
    lines_are_laid();
    laid_loops_are_built();
    loops_run_as_source();
}

/// Where the program is lean, its image keeps to the pace, so nothing is asked of the instructions between two actions.
pub fn lean_images_run()
    ensures { LeanImagesRun }
{
    task_images_run();
    lean_code_keeps_pace();
    lean_is_measured();
    kernel_is_lean();
    kernel_keeps_pace();
}
