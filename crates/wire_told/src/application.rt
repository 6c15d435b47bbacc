//! What is told of an application.

ghost use Rattle.elab_meaning.specs.Answers.{Follows};
ghost use Rattle.elab_meaning.specs.View.{state_of};
ghost use Rattle.wire_facts.specs.Seen as spec;
ghost use Rattle.wire_scopes.specs.View.{base_view};
ghost use Rattle.wire_told.specs.Cuts.{sight_from};
ghost use Rattle.wire_told.specs.View.{application_of, sight_of, survey_of};

use crate::instances::instances_told;
use crate::lookup::Lookup;
use crate::singles::singles_specified;
use crate::sources::Sources;
use crate::survey::{Sight, nothing_seen};
use crate::taking::taken_facts;
use nm_base::{Fault, beside};
use std::alloc::Global;
use wire_elements::headers_declared;
use wire_pairs::InstanceFacts;
use wire_scopes::base_of;

// Specifications, and then lines.
fn all_told(alloc: Global, app: &Lookup, sight: &mut Sight) -> Result<(), Fault>
    ensures { Follows (λ _. sight_of sight.new) result (spec.all_told (application_of app.now.sources.now) (base_view app.now.base) (spec.singles_specified (application_of app.now.sources.now) (base_view app.now.base) 0 app.now.sources.now.made.now (survey_of sight.old) (state_of sight.old.work))) }
{
    singles_specified(alloc, app, sight)?;
    instances_told(alloc, app, sight)?;
    Ok(())
}

// Headers, specifications, and then lines, behind what was seen before.
fn told_from(alloc: Global, sources: &Sources, sight: &mut Sight) -> Result<(), Fault>
    ensures { Follows (λ _. sight_of sight.new) result (sight_from (application_of sources.now) (survey_of sight.old) (state_of sight.old.work)) }
{
    headers_declared(alloc, sources.headers, &mut sight.work, sources.units)?;
    let app = Lookup::new(alloc, sources, base_of(&sight.work))?;
    all_told(alloc, &app, sight)
}

/// What is seen of the instances of an application: the scope of each, and what is told of its elements and lines. First the
/// declarations of headers, then the specifications of instances that are not generic, then the lines of each instance, up to the
/// first line that is refused, which is told of that line. Refuses what headers and specifications refuse.
pub fn sight(alloc: Global, sources: &Sources) -> Result<Sight, Fault>
    ensures { Follows sight_of result (spec.sight_of (application_of sources.now)) }
{
    let mut sight = nothing_seen(alloc);
    let told = told_from(alloc, sources, &mut sight);
    let (sight, ()) = beside(sight, told)?;
    Ok(sight)
}

/// What wires need to know of the types and constants of an application, for each instance. Refuses what headers and
/// specifications refuse.
pub fn facts(alloc: Global, sources: &Sources) -> Result<Vec<InstanceFacts>, Fault>
    ensures { Follows (λ v. v.items) result (spec.facts_of (application_of sources.now)) }
{
    let mut sight = sight(alloc, sources)?;
    Ok(taken_facts(alloc, &mut sight.seen)?)
}
