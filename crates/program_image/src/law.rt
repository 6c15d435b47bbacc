//! From nesC programs to runs of the mote.

ghost use Rattle.program_image.specs.Bodies.{BehaviourKeepsFunctions, BehaviourKeepsLaws};
ghost use Rattle.program_image.specs.Order.{OrderedCodeStands};
ghost use Rattle.program_image.specs.Runs.{LinesAreLaid, LoweredCodeIsSelected, ProgramImagesRun, RootsMeetTheirLaws};

use lower_keeps::{all_rules_are_kept, objects_are_touched, posts_name_tasks};

/// Code that meets the open law of one body meets that of another which the first behaves as.
pub fn behaviour_keeps_laws()
    ensures { BehaviourKeepsLaws }
{}

/// The same of functions, which give the same values.
pub fn behaviour_keeps_functions()
    ensures { BehaviourKeepsFunctions }
{}

/// Where a program's code is laid out, the functions of bodies without parameters meet selection's premises.
pub fn lowered_code_is_selected()
    ensures { LoweredCodeIsSelected }
{
    all_rules_are_kept();
    objects_are_touched();
}

/// The code of those that begin a context meets the open law of what the bodies do in the source.
pub fn roots_meet_their_laws()
    ensures { RootsMeetTheirLaws }
{
    all_rules_are_kept();
    objects_are_touched();
}

/// The code of the lines serves handlers whose functions meet their laws.
pub fn lines_are_laid()
    ensures { LinesAreLaid }
{}

/// Functions of bodies, routines, and the code of reset and of the lines, laid out in this order, with vectors that lead to reset and to
/// the lines, are a program's image.
pub fn ordered_code_stands()
    ensures { OrderedCodeStands }
{}

/// With the image of a program the mote does what the program does, at its pace: on every board whose registers hold words, with every
/// schedule of words, after every number of slots; and its stack stays within its bound.
pub fn program_images_run()
    ensures { ProgramImagesRun }
{
    all_rules_are_kept();
    posts_name_tasks();
    objects_are_touched();
}
