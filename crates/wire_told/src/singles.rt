//! The specifications of instances that are not generic.

ghost use Rattle.std.specs.Prelude.{◌≡◌, is_some};
ghost use Rattle.elab_meaning.specs.Answers.{Gives};
ghost use Rattle.elab_meaning.specs.View.{state_of};
ghost use Rattle.wire_facts.specs.Seen as spec;
ghost use Rattle.wire_scopes.specs.Keys.{types_in};
ghost use Rattle.wire_scopes.specs.View.{base_view};
ghost use Rattle.wire_elements.specs.View.{seen_of};
ghost use Rattle.wire_told.specs.View.{application_of, survey_of};

use crate::components::{elements_at, env_of, is_generic};
use crate::lookup::Lookup;
use crate::survey::Sight;
use elab_meaning::Work;
use nm_base::Fault;
use std::alloc::Global;
use wire_elements::{Seen, specified};
use wire_scopes::{Types, no_scope};

// Of an instance nothing is seen.
fn unseen(alloc: Global) -> Seen
    ensures { seen_of result ≡ spec.unseen }
{
    Seen {
        scope: no_scope(alloc),
        elements: Vec::new(alloc),
        lines: Vec::new(alloc),
    }
}

fn single_specified(
    alloc: Global,
    app: &Lookup,
    instance: usize,
    work: &mut Work,
    types: &mut Types,
) -> Result<Seen, Fault>
    ensures { Gives (λ s. (seen_of s, types_in types.new)) result (state_of work.new) (spec.single_specified (base_view app.now.base) (spec.env_of (application_of app.now.sources.now) instance) (spec.component_of (application_of app.now.sources.now) instance) (is_some (spec.component_of (application_of app.now.sources.now) instance).generic) (types_in types.old) (state_of work.old)) }
{
    if is_generic(app.sources, instance) {
        return Ok(unseen(alloc));
    }
    let early = env_of(app.sources, instance);
    let elems = elements_at(app.sources, instance);
    specified(alloc, early, work, types, app.base, elems, no_scope(alloc))
}

/// The specifications of the instances of components that are not generic, in the order of their creation.
#[tactic(auto, using(crate::proofs::Steps::ends))]
pub fn singles_specified(alloc: Global, app: &Lookup, sight: &mut Sight) -> Result<(), Fault>
    ensures { Gives (λ _. survey_of sight.new) result (state_of sight.new.work) (spec.singles_specified (application_of app.now.sources.now) (base_view app.now.base) 0 app.now.sources.now.made.now (survey_of sight.old) (state_of sight.old.work)) }
{
    let mut instance = 0;
    while instance < app.sources.made.len() {
        let one = single_specified(alloc, app, instance, &mut sight.work, &mut sight.types)?;
        sight.seen.push(one)?;
        instance += 1;
    }
    Ok(())
}
