//! What is seen of instances.

ghost use Rattle.std.specs.Prelude.{◌≡◌, [], true};
ghost use Rattle.wire_facts.specs.Seen as spec;
ghost use Rattle.elab_meaning.specs.View.{state_of};
ghost use Rattle.wire_told.specs.View.{survey_of};

use elab_meaning::Work;
use std::alloc::Global;
use wire_elements::Seen;
use wire_pairs::LineFacts;
use wire_scopes::Types;

/// What is seen of all instances, the types that were met, the work that is in force, and whether no line is refused. Behind a
/// refused line nothing is looked at, and types and work stay as they were there.
#[derive(Drop)]
pub struct Sight {
    pub seen: Vec<Seen>,
    pub types: Types,
    pub work: Work,
    pub is_whole: bool,
}

/// What is told of a line, and whether the lines behind it are looked at.
#[derive(Clone, Copy)]
pub struct Behind {
    pub facts: LineFacts,
    pub goes_on: bool,
}

/// A place among the lines of an instance.
#[derive(Clone, Copy)]
pub struct Site {
    pub instance: usize,
    pub line: usize,
}

// Before any name is in force.
fn no_work(alloc: Global) -> Work
    ensures { state_of result ≡ spec.start }
{
    Work {
        names: Vec::new(alloc),
        tags: Vec::new(alloc),
        first_name: 0,
        first_tag: 0,
        structs: Vec::new(alloc),
        locals: Vec::new(alloc),
        taken: Vec::new(alloc),
        asked: Vec::new(alloc),
    }
}

/// Nothing is seen.
pub fn nothing_seen(alloc: Global) -> Sight
    ensures survey { survey_of result ≡ spec.survey [] [] }
    ensures work { state_of result.work ≡ spec.start }
{
    Sight {
        seen: Vec::new(alloc),
        types: Types::new(alloc),
        work: no_work(alloc),
        is_whole: true,
    }
}

/// A line of which nothing is told.
pub fn goes_on() -> Behind
    ensures { result ≡ record { facts = spec.untold; goes_on = true } }
{
    Behind {
        facts: LineFacts::Brackets(None, None),
        goes_on: true,
    }
}
