//! Laws of the code of programs with tasks.

ghost use Rattle.task_code.specs.Laws.{CodeCanBeLaid, LaidCodeRuns};

use task_image::{lean_images_run, task_code_stands};

/// The code of a program with tasks can be laid out: its instructions are written forms, the labels of each function stand once in it, functions
/// call functions that are there, and calls have no cycle.
pub fn task_code_can_be_laid()
    ensures { CodeCanBeLaid }
{}

/// Where the code of a program with tasks is laid out and data and stack fit the memory, the mote does what the program does, at its pace and within
/// that stack: on every board whose registers hold words, with every schedule of words, after every number of slots.
pub fn laid_task_code_runs()
    ensures { LaidCodeRuns }
{
    task_code_stands();
    lean_images_run();
}
