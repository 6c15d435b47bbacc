//! Laws of the code of programs.

ghost use Rattle.image_code.specs.Laws.{CodeCanBeLaid, LaidCodeRuns};

use program_image::program_images_run;

/// The code of a program can be laid out: its instructions are written forms, the labels of each function stand once in it, functions
/// call functions that are there, and calls have no cycle.
pub fn code_can_be_laid()
    ensures { CodeCanBeLaid }
{}

/// Where the code of a program is laid out and data and stack fit the memory, the mote does what the program does, at its pace and within
/// that stack: on every board whose registers hold words, with every schedule of words, after every number of slots.
pub fn laid_code_runs()
    ensures { LaidCodeRuns }
{
    program_images_run();
}
