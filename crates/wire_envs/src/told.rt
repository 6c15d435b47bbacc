//! What is told of `unique` to what stands in one file.

ghost use Rattle.std.specs.Prelude.{◌≡◌, IfOk, drop, map, unwrap_or};
ghost use Rattle.elab_meaning.specs.View.{env_of, unique_of, unique_count_of};
ghost use Rattle.wire_names.specs.Places.{place_of};
ghost use Rattle.wire_envs.specs.Envs as spec;

use elab_meaning::{Env, Unique, UniqueCount};
use nm_base::{List, NoMemory};
use std::alloc::Global;
use wire_uniques::{Uniques, Use};

fn short(number: usize) -> Result<u32, NoMemory>
    ensures { IfOk result (λ k. k ≡ number) }
{
    match u32::try_from(number) {
        Ok(short) => Ok(short),
        Err(_) => Err(NoMemory),
    }
}

fn unique(one: &Use, number: usize) -> Result<Unique, NoMemory>
    ensures { IfOk result (λ unique. unique_of unique ≡ spec.unique one.now number) }
{
    Ok(Unique {
        at: one.at,
        number: short(number)?,
    })
}

fn uniques_in(alloc: Global, uses: &[Use], numbers: &[usize]) -> Result<Vec<Unique>, NoMemory>
    ensures { IfOk result (λ uniques. map unique_of uniques.items ≡ spec.uniques_in uses.now numbers.now) }
{
    let mut uniques = Vec::new(alloc);
    let mut rest = uses;
    let mut left = numbers;
    while let Some((one, more)) = rest.split_first() {
        let Some((number, behind)) = left.split_first() else {
            return Ok(uniques);
        };
        if !one.is_count {
            uniques.push(unique(one, *number)?)?;
        }
        rest = more;
        left = behind;
    }
    Ok(uniques)
}

fn count_asked(uniques: &Uniques, one: &Use) -> Result<UniqueCount, NoMemory>
    ensures { IfOk result (λ count. unique_count_of count ≡ spec.counted (λ text. unwrap_or (place_of uniques.now.counts text) 0) one.now) }
{
    let count = short(uniques.count(&one.text))?;
    let text = one.text.clone()?;
    Ok(UniqueCount { text, count })
}

#[tactic(auto, using(crate::proofs::Lists::counts))]
fn counts_in(alloc: Global, uniques: &Uniques, uses: &[Use]) -> Result<Vec<UniqueCount>, NoMemory>
    ensures { IfOk result (λ counts. map unique_count_of counts.items ≡ spec.counts_in (λ text. unwrap_or (place_of uniques.now.counts text) 0) uses.now) }
{
    let mut counts = Vec::new(alloc);
    for one in uses {
        if one.is_count {
            counts.push(count_asked(uniques, one)?)?;
        }
    }
    Ok(counts)
}

// The numbers from this one on.
fn numbers_from(numbers: &[usize], start: usize) -> &[usize]
    ensures { result.now ≡ drop start numbers.now }
{
    match numbers.get(start..) {
        None => &[],
        Some(rest) => rest,
    }
}

/// What is told to an instance, or to headers, where these are its uses and this is the number of the first among all numbers. A
/// text that it asks for has its count.
pub fn told(
    alloc: Global,
    uniques: &Uniques,
    instance: usize,
    uses: &[Use],
    start: usize,
) -> Result<Env, NoMemory>
    ensures { IfOk result (λ env. env_of env ≡ spec.told (λ text. unwrap_or (place_of uniques.now.counts text) 0) instance uses.now (drop start uniques.now.numbers.items)) }
{
    let instance = short(instance)?;
    let found = uniques_in(alloc, uses, numbers_from(uniques.numbers.as_slice(), start))?;
    let counts = counts_in(alloc, uniques, uses)?;
    Ok(Env {
        instance,
        uniques: List::new(found),
        counts: List::new(counts),
        items: List::new(Vec::new(alloc)),
        first_dispatch: 0,
    })
}
