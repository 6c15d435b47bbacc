//! Scopes: what is declared in one is in force up to its end.

ghost use Rattle.std.specs.Prelude.{◌≡◌};
ghost use Rattle.elab_meaning.specs.View.{state_of};
ghost use Rattle.elab_pieces.specs.Flow.{entered, left, outer, outer_of};

use elab_meaning::Work;

/// How many names and tags are in force outside of a scope, and where the scope around it begins.
#[derive(Clone, Copy)]
pub struct Outer {
    pub names: usize,
    pub tags: usize,
    pub first_name: usize,
    pub first_tag: usize,
}

/// Opens a scope.
pub fn enter(work: &mut Work) -> Outer
    ensures outer { outer_of result ≡ outer (state_of work.old) }
    ensures entered { state_of work.new ≡ entered (state_of work.old) }
{
    let names = work.names.len();
    let tags = work.tags.len();
    let result = Outer {
        names,
        tags,
        first_name: work.first_name,
        first_tag: work.first_tag,
    };
    work.first_name = names;
    work.first_tag = tags;
    result
}

/// Ends the scope.
#[tactic(auto, using(crate::proofs::Statements::ends))]
pub fn leave(work: &mut Work, outer: Outer)
    ensures { state_of work.new ≡ left (outer_of outer) (state_of work.old) }
{
    work.names.truncate(outer.names);
    work.tags.truncate(outer.tags);
    work.first_name = outer.first_name;
    work.first_tag = outer.first_tag;
}
