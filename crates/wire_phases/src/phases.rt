//! Wires, with refusals as faults.

ghost use Rattle.std.specs.Prelude.{◌≡◌, Ok, Err, IfOk};
ghost use Rattle.nm_base.specs.declared.fault.Fault.{Fault as FaultOf};
ghost use Rattle.wire_phases.specs.Faults.{IsRefusal};
ghost use Rattle.wire_phases.specs.Wired as spec;

use crate::faults::wire_fault;
use nm_base::Fault;
use std::alloc::Global;
use wire_instances::Made;
use wire_pairs::{InstanceFacts, Pair, Stop, pairs};
use wire_units::Loaded;

/// The pairs of ends that the wires of these instances link, where this is told of their types and constants. Refuses the first
/// wire that is refused, with E10, E11, E12 or E14.
#[tactic(auto, using(crate::proofs::Refusals::refusals))]
pub fn linked(
    alloc: Global,
    units: &[Loaded],
    made: &[Made],
    facts: &[InstanceFacts],
) -> Result<Vec<Pair>, Fault>
    ensures linked { IfOk result (λ pairs. spec.linked units.now made.now facts.now ≡ Ok pairs.items) }
    ensures refused { (fault : FaultOf) → result ≡ Err fault → IsRefusal fault → spec.linked units.now made.now facts.now ≡ Err fault }
{
    match pairs(alloc, units, made, facts) {
        Ok(pairs) => Ok(pairs),
        Err(Stop::Unlinked(unlinked)) => Err(wire_fault(unlinked)),
        Err(Stop::NoMemory) => Err(Fault::NoMemory),
    }
}
