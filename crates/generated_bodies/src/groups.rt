//! Groups of bodies, and the chain.

ghost use Rattle.std.specs.Prelude.{◌<◌};

use crate::bodies::COMPARED;
use crate::compare::{Outcome, compare};
use crate::programs::{chain, generated};
use crate::sketch::Sketch;
use crate::tally::Tally;
use nm_base::NoMemory;
use std::alloc::Global;

/// How many groups there are.
pub(crate) const GROUPS: u32 = 10;

/// How many bodies are in a group.
const BODIES: u32 = 30;

/// How many calls the chain has.
pub(crate) const CHAIN: u32 = 200;

/// How many Loads, Ins and Posts are answered.
const ANSWERS: u32 = 300;

// Words as ports, queues and variables might give them, every other one small.
fn answers(alloc: Global, seed: u32) -> Result<Vec<u16>, NoMemory> {
    let mut random = Sketch::new(alloc, 100 * u64::from(seed) + 99);
    let mut all = Vec::new(alloc);
    for _ in 0..ANSWERS {
        let word = if random.once_in(2) {
            random.below(4)
        } else {
            random.below(0x1_0000)
        };
        all.push(word as u16)?;
    }
    Ok(all)
}

/// Compares the bodies of a group.
pub(crate) fn group(alloc: Global, number: u32) -> Result<Tally, NoMemory>
    requires { number < 10 }
{
    let mut tally = Tally::new();
    for k in 0..BODIES {
        let seed = number * BODIES + k;
        let given = answers(alloc, seed)?;
        let p = generated(alloc, seed)?;
        let outcome = compare(alloc, &p, COMPARED, given.as_slice())?;
        tally.count(&outcome);
    }
    Ok(tally)
}

/// Compares the body that calls the first of the chain.
pub(crate) fn chain_outcome(alloc: Global) -> Result<Outcome, NoMemory> {
    let p = chain(alloc, CHAIN)?;
    let given = answers(alloc, 0)?;
    compare(alloc, &p, CHAIN + 1, given.as_slice())
}
