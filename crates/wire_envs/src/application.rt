//! What is told of `unique` in a whole application.

ghost use Rattle.std.specs.Prelude.{◌≡◌, ◌+◌, [], IfOk, drop, map, unwrap_or, slice_get};
ghost use Rattle.elab_meaning.specs.View.{env_of};
ghost use Rattle.wire_names.specs.Places.{place_of};
ghost use Rattle.wire_uniques.specs.Statements.{or_none};
ghost use Rattle.wire_envs.specs.Envs as spec;

use crate::told::told;
use elab_meaning::Env;
use nm_base::{List, NoMemory};
use std::alloc::Global;
use wire_instances::Made;
use wire_uniques::{Uniques, Use, number_uses};
use wire_units::Loaded;

/// What is told of `unique` to headers and to each instance.
#[derive(Drop)]
pub struct Envs {
    pub headers: Env,
    pub envs: Vec<Env>,
}

fn uses_at(files: &[List<Use>], component: usize) -> &[Use]
    ensures { result.now ≡ or_none (slice_get files.now component) }
{
    match files.get(component) {
        Some(uses) => uses.as_slice(),
        None => &[],
    }
}

fn of_instances(alloc: Global, uniques: &Uniques, made: &[Made]) -> Result<Vec<Env>, NoMemory>
    ensures { IfOk result (λ envs. map env_of envs.items ≡ spec.of_instances (λ text. unwrap_or (place_of uniques.now.counts text) 0) uniques.now.files.items uniques.now.numbers.items 0 made.now uniques.now.starts.items) }
{
    let mut envs = Vec::new(alloc);
    let mut starts = uniques.starts.as_slice();
    let mut rest = made;
    let mut instance: usize = 0;
    while let Some((one, more)) = rest.split_first() {
        let Some((start, behind)) = starts.split_first() else {
            return Ok(envs);
        };
        let uses = uses_at(uniques.files.as_slice(), one.component);
        envs.push(told(alloc, uniques, instance, uses, *start)?)?;
        instance += 1;
        rest = more;
        starts = behind;
    }
    Ok(envs)
}

/// What is told of `unique` to the headers of these files and to each of these instances, in time that grows with the uses of
/// each instance's file.
pub fn envs_of(alloc: Global, units: &[Loaded], made: &[Made]) -> Result<Envs, NoMemory>
    ensures headers { IfOk result (λ all. env_of all.headers ≡ spec.headers_told units.now made.now) }
    ensures instances { IfOk result (λ all. map env_of all.envs.items ≡ spec.instances_told units.now made.now) }
{
    let uniques = number_uses(alloc, units, made)?;
    let headers = told(alloc, &uniques, 0, uniques.headers.as_slice(), 0)?;
    let envs = of_instances(alloc, &uniques, made)?;
    Ok(Envs { headers, envs })
}
