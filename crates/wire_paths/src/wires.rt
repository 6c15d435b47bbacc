//! Wires in either direction.

ghost use Rattle.std.specs.Prelude.{◌≡◌, IfOk};
ghost use Rattle.wire_paths.specs.Wires as spec;

use nm_base::NoMemory;
use std::alloc::Global;
use wire_pairs::Pair;
use wire_targets::{End, Wire};

/// How wires are followed: calls of commands go along the pairs, and signals of events the other way.
#[derive(Debug, Clone, Copy, PartialEq, Eq)]
pub enum Way {
    Calls,
    Signals,
}

/// The same number in fewer bits: no list in memory has 2^32 elements or instances.
pub fn short(number: usize) -> Result<u32, NoMemory>
    ensures { IfOk result (λ n. n ≡ number) }
{
    match u32::try_from(number) {
        Ok(number) => Ok(number),
        Err(_) => Err(NoMemory),
    }
}

fn end_of(end: wire_pairs::End) -> Result<End, NoMemory>
    ensures { IfOk result (λ e. e ≡ spec.end_of end) }
{
    let instance = short(end.instance)?;
    let element = short(end.element)?;
    Ok(End {
        instance,
        element,
        param: end.param,
    })
}

fn wire_of(way: Way, pair: &Pair) -> Result<Wire, NoMemory>
    ensures { IfOk result (λ w. w ≡ spec.wire_of way pair.now) }
{
    let from = end_of(pair.from)?;
    let to = end_of(pair.to)?;
    match way {
        Way::Calls => Ok(Wire { from, to }),
        Way::Signals => Ok(Wire { from: to, to: from }),
    }
}

/// The wires of these pairs, with their numbers.
pub fn wires_of(alloc: Global, way: Way, pairs: &[Pair]) -> Result<Vec<Wire>, NoMemory>
    ensures { IfOk result (λ wires. wires.items ≡ spec.wires_of way pairs.now) }
{
    let mut wires = Vec::new(alloc);
    let mut rest = pairs;
    while let Some((pair, more)) = rest.split_first() {
        wires.push(wire_of(way, pair)?)?;
        rest = more;
    }
    Ok(wires)
}
