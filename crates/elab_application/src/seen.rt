//! What is told to instances and seen of them, by their numbers.

ghost use Rattle.std.specs.Prelude.{◌≡◌, IfOk, map};
ghost use Rattle.elab_meaning.specs.View.{entry_of, env_of as env_view, unique_of};
ghost use Rattle.wire_envs.specs.Envs.{headers_told, instances_told};
ghost use Rattle.wire_facts.specs.Seen as spec;
ghost use Rattle.wire_elements.specs.View.{early_env, seen_of};
ghost use Rattle.wire_told.specs.View.{application_of};

use elab_meaning::{Entry, Env, Unique};
use nm_base::{List, NoMemory, beside};
use std::alloc::Global;
use wire_elements::{Early, Seen};
use wire_envs::{Envs, envs_of};
use wire_instances::Made;
use wire_pairs::ElementFacts;
use wire_told::Sources;
use wire_units::Loaded;

/// What is told of `unique` to headers and to instances.
#[derive(Drop)]
pub struct EarlyEnvs {
    pub headers: Early,
    pub envs: Vec<Early>,
}

fn early(alloc: Global, envs: Vec<Env>) -> Result<Vec<Early>, NoMemory>
    ensures { IfOk result (λ all. map early_env all.items ≡ map env_view envs.items) }
{
    let mut all = Vec::new(alloc);
    for env in envs {
        all.push(Early::new(alloc, env))?;
    }
    Ok(all)
}

/// What is told to the headers of these files and to these instances.
pub fn early_envs(alloc: Global, units: &[Loaded], made: &[Made]) -> Result<EarlyEnvs, NoMemory>
    ensures headers { IfOk result (λ all. early_env all.headers ≡ headers_told units.now made.now) }
    ensures instances { IfOk result (λ all. map early_env all.envs.items ≡ instances_told units.now made.now) }
{
    let Envs { headers, envs } = envs_of(alloc, units, made)?;
    let headers = Early::new(alloc, headers);
    let (headers, envs) = beside(headers, early(alloc, envs))?;
    Ok(EarlyEnvs { headers, envs })
}

/// What is told to an instance.
#[tactic(auto, using(crate::proofs::Found::found))]
pub fn env_of<'s>(sources: &Sources<'s>, instance: usize) -> &'s Early
    ensures { early_env result.now ≡ spec.env_of (application_of sources.now) instance }
{
    match sources.envs.get(instance) {
        Some(early) => early,
        None => sources.headers,
    }
}

/// The numbers of `unique` that are told.
pub fn uniques_of(alloc: Global, early: &Early) -> Result<List<Unique>, NoMemory>
    ensures { IfOk result (λ us. map unique_of us ≡ (early_env early.now).uniques) }
{
    let mut uniques = Vec::new(alloc);
    for unique in early.told.env.uniques.as_slice() {
        uniques.push(*unique)?;
    }
    Ok(List::new(uniques))
}

/// The names in the scope of an instance.
#[tactic(auto, using(crate::proofs::Found::found))]
pub fn names_at(seen: &[Seen], instance: usize) -> &[Entry]
    ensures { map entry_of result.now ≡ (spec.seen_at (map seen_of seen.now) instance).scope.names }
{
    match seen.get(instance) {
        Some(one) => one.scope.names.as_slice(),
        None => &[],
    }
}

/// What is told of the elements of an instance.
#[tactic(auto, using(crate::proofs::Found::found))]
pub fn elements_at(seen: &[Seen], instance: usize) -> &[ElementFacts]
    ensures { result.now ≡ (spec.seen_at (map seen_of seen.now) instance).elements }
{
    match seen.get(instance) {
        Some(one) => one.elements.as_slice(),
        None => &[],
    }
}
