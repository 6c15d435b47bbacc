//! What is told of the lines of instances.

ghost use Rattle.std.specs.Prelude.{◌≡◌, map, IfOk, OnOk};
ghost use Rattle.elab_meaning.specs.View.{state_of};
ghost use Rattle.wire_facts.specs.Components.{line_of};
ghost use Rattle.wire_facts.specs.Scopes as scopes;
ghost use Rattle.wire_facts.specs.Seen as spec;
ghost use Rattle.wire_scopes.specs.Keys.{types_in};
ghost use Rattle.wire_scopes.specs.View.{base_view, scope_of};
ghost use Rattle.wire_elements.specs.View.{seen_of};
ghost use Rattle.wire_told.specs.Cuts.{instance_seen};
ghost use Rattle.wire_told.specs.View.{application_of, course_in, sight_of, survey_of, told_of};

use crate::components::lines_at;
use crate::lines::line_told;
use crate::lookup::Lookup;
use crate::survey::{Sight, Site};
use elab_meaning::Work;
use nesc_tree::ConfLine;
use nm_base::NoMemory;
use std::alloc::Global;
use wire_elements::Seen;
use wire_pairs::LineFacts;
use wire_scopes::{Base, Scope, copied_scope, exchange, in_block, no_scope};

// Adds what is told of the lines of an instance, up to the first that is refused, and says whether none is.
#[tactic(auto, using(crate::proofs::Steps::ends))]
fn lines_told(
    alloc: Global,
    app: &Lookup,
    instance: usize,
    sight: &mut Sight,
    lines: &[ConfLine],
    told: &mut Vec<LineFacts>,
) -> Result<bool, NoMemory>
    ensures { IfOk result (λ goes_on. spec.lines_told (application_of app.now.sources.now) (base_view app.now.base) instance 0 (map line_of lines.now) (survey_of sight.old) (state_of sight.old.work) told.old.items ≡ told_of goes_on told.new.items sight.new) }
{
    let mut line = 0;
    for conf in lines {
        let behind = line_told(alloc, app, Site { instance, line }, sight, conf)?;
        told.push(behind.facts)?;
        if !behind.goes_on {
            return Ok(false);
        }
        line += 1;
    }
    Ok(true)
}

// The scope of an instance once more.
#[tactic(auto, using(crate::proofs::Found::found))]
fn scope_at(alloc: Global, seen: &[Seen], instance: usize) -> Result<Scope, NoMemory>
    ensures { IfOk result (λ s. scope_of s ≡ (spec.seen_at (map seen_of seen.now) instance).scope) }
{
    match seen.get(instance) {
        Some(one) => copied_scope(alloc, &one.scope),
        None => Ok(no_scope(alloc)),
    }
}

// A block inside the scope of an instance comes in force.
fn enter(work: &mut Work, base: Base, scope: Scope) -> Result<(), NoMemory>
    ensures { OnOk result (state_of work.new ≡ scopes.with_own (base_view base) (scopes.in_block (base_view base) (scope_of scope)) (state_of work.old)) }
{
    let own = in_block(base, scope)?;
    exchange(work, base, own)?;
    Ok(())
}

// Adds what is told of the lines of an instance, in a block inside its scope.
fn instance_told(
    alloc: Global,
    app: &Lookup,
    instance: usize,
    sight: &mut Sight,
    told: &mut Vec<LineFacts>,
) -> Result<bool, NoMemory>
    ensures { IfOk result (λ goes_on. spec.lines_told (application_of app.now.sources.now) (base_view app.now.base) instance 0 (spec.component_of (application_of app.now.sources.now) instance).lines (survey_of sight.old) (scopes.with_own (base_view app.now.base) (scopes.in_block (base_view app.now.base) (spec.seen_at (map seen_of sight.old.seen.items) instance).scope) (state_of sight.old.work)) told.old.items ≡ told_of goes_on told.new.items sight.new) }
{
    let scope = scope_at(alloc, sight.seen.as_slice(), instance)?;
    enter(&mut sight.work, app.base, scope)?;
    lines_told(
        alloc,
        app,
        instance,
        sight,
        lines_at(app.sources, instance),
        told,
    )
}

#[tactic(auto, using(crate::proofs::Takes::lines))]
fn with_lines(seen: &mut Vec<Seen>, instance: usize, lines: Vec<LineFacts>)
    ensures { map seen_of seen.new.items ≡ spec.with_lines instance lines.items (map seen_of seen.old.items) }
{
    if instance < seen.len() {
        seen[instance].lines = lines;
    }
}

// One instance: what is told of its lines stands in what is seen of it. Says whether none is refused.
fn told_in(
    alloc: Global,
    app: &Lookup,
    instance: usize,
    sight: &mut Sight,
) -> Result<bool, NoMemory>
    ensures { IfOk result (λ goes_on. instance_seen (application_of app.now.sources.now) (base_view app.now.base) instance (map seen_of sight.old.seen.items) (types_in sight.old.types, state_of sight.old.work) ≡ spec.sight (map seen_of sight.new.seen.items) (course_in goes_on sight.new)) }
{
    let mut told = Vec::new(alloc);
    let goes_on = instance_told(alloc, app, instance, sight, &mut told)?;
    with_lines(&mut sight.seen, instance, told);
    Ok(goes_on)
}

/// What is told of the lines of all instances, in the order of their creation, up to the first line that is refused.
#[tactic(auto, using(crate::proofs::Steps::ends))]
pub fn instances_told(alloc: Global, app: &Lookup, sight: &mut Sight) -> Result<(), NoMemory>
    ensures { OnOk result (spec.instances_told (application_of app.now.sources.now) (base_view app.now.base) 0 app.now.sources.now.made.now (map seen_of sight.old.seen.items) (types_in sight.old.types, state_of sight.old.work) ≡ sight_of sight.new) }
{
    let mut instance = 0;
    while instance < app.sources.made.len() {
        let goes_on = told_in(alloc, app, instance, sight)?;
        if !goes_on {
            sight.is_whole = false;
            return Ok(());
        }
        instance += 1;
    }
    sight.is_whole = true;
    Ok(())
}
