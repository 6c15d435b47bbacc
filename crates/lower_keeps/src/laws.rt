//! The rules of reached states, tasks that are posted, and objects that are touched.

ghost use Rattle.lower_keeps.specs.Laws.{AllRulesAreKept, EachAccessIsOfData, FramesAreKept, ObjectsAreTouched, PostsNameTasks};

use lower_reached::{accesses_are_left, actions_are_done};
use source_accesses::{accesses_are_of_objects, objects_lie_in_data};

/// Each Load and Store that a body of a well-formed program does is to data: from 0x1100 on, and at an even address where it is of a word.
pub fn accesses_are_of_data()
    ensures { EachAccessIsOfData }
{
    accesses_are_of_objects();
    objects_lie_in_data();
}

/// In each state that the machine reaches in the code of a well-formed program, from the start of any function and whatever it is
/// answered, a Peek or a Poke is of bytes of the function's frame in which no Begin saves a status, and at an even place where it is of
/// a word.
pub fn frames_are_kept()
    ensures { FramesAreKept }
{}

/// The code of a well-formed program without a cycle of calls keeps all rules of reached states.
pub fn all_rules_are_kept()
    ensures { AllRulesAreKept }
{
    accesses_are_left();
    accesses_are_of_data();
    frames_are_kept();
}

/// Each Post of the code of a well-formed program is of one of its tasks.
pub fn posts_name_tasks()
    ensures { PostsNameTasks }
{}

/// What a body without parameters of a well-formed program loads and stores ends where its objects do or before.
pub fn objects_are_touched()
    ensures { ObjectsAreTouched }
{
    actions_are_done();
    accesses_are_of_objects();
    objects_lie_in_data();
}
