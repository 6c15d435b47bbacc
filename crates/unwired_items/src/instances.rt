//! What the instances of an application lack.

ghost use Rattle.std.specs.Prelude.{◌≡◌, IfOk, OnOk, map};
ghost use Rattle.elab_meaning.specs.Answers.{Follows};
ghost use Rattle.elab_meaning.specs.View.{state_of};
ghost use Rattle.elab_targets.specs.View.{instance_of};
ghost use Rattle.wire_elements.specs.View.{seen_of};
ghost use Rattle.wire_facts.specs.Seen as told;
ghost use Rattle.wire_scopes.specs.View.{base_view, scope_of};
ghost use Rattle.wire_told.specs.View.{application_of};
ghost use Rattle.unwired_items.specs.Unwired as spec;

use crate::elements::elements_of;
use crate::ends::Ends;
use elab_application::env_of;
use elab_meaning::Work;
use elab_targets::Instance;
use item_targets::unwired;
use nm_base::{Fault, NoMemory, Pos, Refusal, beside};
use std::alloc::Global;
use wire_elements::Seen;
use wire_scopes::{Base, Scope, copied_scope, exchange, in_block, no_scope};
use wire_told::Sources;

/// What is told to the instances of an application, how many names its headers have, and what is seen of the instances.
#[derive(Drop)]
pub struct Ground<'a> {
    pub sources: &'a Sources<'a>,
    pub base: Base,
    pub seen: &'a [Seen],
}

// The scope of an instance once more.
#[tactic(auto, using(crate::proofs::Found::found))]
fn scope_at(alloc: Global, seen: &[Seen], instance: usize) -> Result<Scope, NoMemory>
    ensures { IfOk result (λ s. scope_of s ≡ (told.seen_at (map seen_of seen.now) instance).scope) }
{
    match seen.get(instance) {
        Some(one) => copied_scope(alloc, &one.scope),
        None => Ok(no_scope(alloc)),
    }
}

// A block inside this scope comes in force.
fn enter(work: &mut Work, base: Base, scope: Scope) -> Result<(), NoMemory>
    ensures { OnOk result (state_of work.new ≡ spec.inside (base_view base) (scope_of scope) (state_of work.old)) }
{
    let own = in_block(base, scope)?;
    exchange(work, base, own)?;
    Ok(())
}

fn enter_instance(
    alloc: Global,
    ground: &Ground,
    number: usize,
    work: &mut Work,
) -> Result<(), NoMemory>
    ensures { OnOk result (state_of work.new ≡ spec.inside (base_view ground.now.base) (told.seen_at (map seen_of ground.now.seen.now) number).scope (state_of work.old)) }
{
    let scope = scope_at(alloc, ground.seen, number)?;
    enter(work, ground.base, scope)
}

// What the module of an instance lacks, in whose scope the work is.
fn lacking(
    alloc: Global,
    ground: &Ground,
    number: usize,
    instance: &Instance,
    work: &Work,
) -> Result<Vec<Pos>, NoMemory>
    ensures { IfOk result (λ v. v.items ≡ spec.in_scope (application_of ground.now.sources.now) number (instance_of instance.now) (state_of work.now)) }
{
    let elems = instance.elems.as_slice();
    let elements = elements_of(alloc, elems)?;
    unwired(
        alloc,
        env_of(ground.sources, number),
        elements.as_slice(),
        &Ends { elems },
        instance.decls,
        work,
    )
}

fn in_instance(
    alloc: Global,
    ground: &Ground,
    number: usize,
    instance: &Instance,
    work: &mut Work,
) -> Result<Vec<Pos>, NoMemory>
    ensures lacking { IfOk result (λ v. v.items ≡ spec.in_instance (application_of ground.now.sources.now) (base_view ground.now.base) (map seen_of ground.now.seen.now) number (instance_of instance.now) (state_of work.old)) }
    ensures inside { IfOk result (λ _. state_of work.new ≡ spec.inside (base_view ground.now.base) (told.seen_at (map seen_of ground.now.seen.now) number).scope (state_of work.old)) }
{
    enter_instance(alloc, ground, number, work)?;
    lacking(alloc, ground, number, instance, work)
}

// Refuses the first of these places.
fn refuse_first(places: &[Pos]) -> Result<(), Fault>
    ensures { Follows (λ x. x) result (spec.refused_at places.now) }
{
    match places.first() {
        None => Ok(()),
        Some(at) => Err(Fault::Refused(Refusal::Unwired(*at))),
    }
}

/// Refuses the first place at which an instance lacks something, in the order of creation and of the text.
#[tactic(auto, using(crate::proofs::Firsts::firsts))]
pub fn refuse_first_unwired(
    alloc: Global,
    ground: &Ground,
    instances: &[Instance],
    work: &mut Work,
) -> Result<(), Fault>
    ensures { Follows (λ x. x) result (spec.refused_at (spec.all_unwired (application_of ground.now.sources.now) (base_view ground.now.base) (map seen_of ground.now.seen.now) 0 (map instance_of instances.now) (state_of work.old))) }
{
    let mut number = 0;
    for instance in instances {
        let places = in_instance(alloc, ground, number, instance, work)?;
        refuse_first(places.as_slice())?;
        number += 1;
    }
    Ok(())
}
