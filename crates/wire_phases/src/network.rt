//! The instances, pairs and paths of an application.

ghost use Rattle.std.specs.Prelude.{◌≡◌, Ok, Err, IfOk};
ghost use Rattle.nm_base.specs.declared.fault.Fault.{Fault as FaultOf};
ghost use Rattle.wire_paths.specs.declared.wires.Way.TheVariants as way;
ghost use Rattle.wire_paths.specs.Wires.{wires_of};
ghost use Rattle.wire_phases.specs.Faults.{IsRefusal};
ghost use Rattle.wire_phases.specs.Wired as spec;
ghost use Rattle.wire_phases.specs.Closed.{Wires};

use crate::creation::created;
use crate::phases::linked;
use crate::telling::Telling;
use nm_base::Fault;
use std::alloc::Global;
use wire_instances::Made;
use wire_pairs::{InstanceFacts, Pair};
use wire_paths::{Nets, nets};
use wire_units::Loaded;

/// The instances of an application with what is told of them, and its pairs.
#[derive(Drop)]
pub struct Links {
    pub made: Vec<Made>,
    pub facts: Vec<InstanceFacts>,
    pub pairs: Vec<Pair>,
}

/// The instances and pairs of the application that these files hold. Refuses creation first, then what is told, then wires.
pub fn wired<T: Telling>(alloc: Global, teller: &T, units: &[Loaded]) -> Result<Links, Fault>
    ensures wired { IfOk result (λ l. spec.wired_of T.Tells units.now ≡ Ok (spec.wired units.now l.made.items l.facts.items l.pairs.items)) }
    ensures refused { (fault : FaultOf) → result ≡ Err fault → IsRefusal fault → spec.wired_of T.Tells units.now ≡ Err fault }
{
    let made = created(alloc, units)?;
    let facts = teller.facts(alloc, units, made.as_slice())?;
    let pairs = linked(alloc, units, made.as_slice(), facts.as_slice())?;
    Ok(Links { made, facts, pairs })
}

/// The instances and pairs of an application, and its wires in both directions.
#[derive(Drop)]
pub struct Network {
    pub links: Links,
    pub nets: Nets,
}

/// The same, where its paths are fine: behind all pairs a path that meets an end twice is refused with E15, and too many with
/// Limit(Wires).
#[tactic(auto, using(crate::proofs::Refusals::paths))]
pub fn closed<T: Telling>(alloc: Global, teller: &T, units: &[Loaded]) -> Result<Network, Fault>
    ensures wired { IfOk result (λ w. Wires T.Tells units.now (Ok (spec.wired units.now w.links.made.items w.links.facts.items w.links.pairs.items))) }
    ensures calls { IfOk result (λ w. w.nets.calls.wires.items ≡ wires_of way.Calls w.links.pairs.items) }
    ensures signals { IfOk result (λ w. w.nets.signals.wires.items ≡ wires_of way.Signals w.links.pairs.items) }
    ensures refused { (fault : FaultOf) → result ≡ Err fault → IsRefusal fault → Wires T.Tells units.now (Err fault) }
{
    let links = wired(alloc, teller, units)?;
    let nets = nets(
        alloc,
        units,
        links.made.as_slice(),
        links.facts.as_slice(),
        links.pairs.as_slice(),
    )?;
    Ok(Network { links, nets })
}
