//! The paths from each element of an application.

ghost use Rattle.std.specs.Prelude.{◌≡◌, Ok, Err, IfOk, OnOk};
ghost use Rattle.nm_base.specs.declared.fault.Fault.{Fault as FaultOf};
ghost use Rattle.wire_paths.specs.declared.wires.Way.TheVariants as way;
ghost use Rattle.wire_paths.specs.Answers.{IsRefusal};
ghost use Rattle.wire_paths.specs.Wires.{wires_of};
ghost use Rattle.wire_paths.specs.Paths as spec;
ghost use Rattle.wire_paths.specs.Ground.{app_of};

use crate::elements::{element_count, greatest_at};
use crate::ground::{Ground, Nets};
use crate::net::Net;
use crate::paths::{Place, at_element};
use crate::wires::{Way, short};
use nm_base::Fault;
use std::alloc::Global;
use wire_instances::Made;
use wire_pairs::{InstanceFacts, Pair};
use wire_units::Loaded;

fn of_element(alloc: Global, ground: &Ground, instance: usize, element: usize) -> Result<(), Fault>
    ensures passed { OnOk result (spec.OfElement (app_of ground.now) ground.now.pairs.now instance element (Ok tt)) }
    ensures refused { (fault : FaultOf) → result ≡ Err fault → IsRefusal fault → spec.OfElement (app_of ground.now) ground.now.pairs.now instance element (Err fault) }
{
    let place = Place {
        instance: short(instance)?,
        element: short(element)?,
    };
    let greatest = greatest_at(ground.facts, instance, element);
    at_element(alloc, ground.pairs, &ground.nets.calls, place, greatest)?;
    at_element(alloc, ground.pairs, &ground.nets.signals, place, greatest)
}

fn of_instance(alloc: Global, ground: &Ground, instance: usize) -> Result<(), Fault>
    ensures passed { OnOk result (spec.OfInstance (app_of ground.now) ground.now.pairs.now instance (Ok tt)) }
    ensures refused { (fault : FaultOf) → result ≡ Err fault → IsRefusal fault → spec.OfInstance (app_of ground.now) ground.now.pairs.now instance (Err fault) }
{
    let count = element_count(ground.units, ground.made, instance);
    let mut element = 0;
    while element < count {
        of_element(alloc, ground, instance, element)?;
        element += 1;
    }
    Ok(())
}

fn of_instances(alloc: Global, ground: &Ground) -> Result<(), Fault>
    ensures passed { OnOk result (spec.Paths (app_of ground.now) ground.now.pairs.now (Ok tt)) }
    ensures refused { (fault : FaultOf) → result ≡ Err fault → IsRefusal fault → spec.Paths (app_of ground.now) ground.now.pairs.now (Err fault) }
{
    let count = ground.made.len();
    let mut instance = 0;
    while instance < count {
        of_instance(alloc, ground, instance)?;
        instance += 1;
    }
    Ok(())
}

/// The wires of an application in both directions, where its paths are fine. Refuses the first end, by instance and element, from
/// which a path meets an end twice, with E15 at the wire that closes it, or from which paths meet more ends than `MAX_WIRES`. From
/// one end they are followed in their order, and whichever comes first is told.
pub fn nets(
    alloc: Global,
    units: &[Loaded],
    made: &[Made],
    facts: &[InstanceFacts],
    pairs: &[Pair],
) -> Result<Nets, Fault>
    ensures calls { IfOk result (λ nets. nets.calls.wires.items ≡ wires_of way.Calls pairs.now) }
    ensures signals { IfOk result (λ nets. nets.signals.wires.items ≡ wires_of way.Signals pairs.now) }
    ensures passed { OnOk result (spec.Paths (record { units = units.now; made = made.now; facts = facts.now }) pairs.now (Ok tt)) }
    ensures refused { (fault : FaultOf) → result ≡ Err fault → IsRefusal fault → spec.Paths (record { units = units.now; made = made.now; facts = facts.now }) pairs.now (Err fault) }
{
    let nets = Nets {
        calls: Net::new(alloc, Way::Calls, pairs)?,
        signals: Net::new(alloc, Way::Signals, pairs)?,
    };
    let ground = Ground {
        units,
        made,
        facts,
        pairs,
        nets: &nets,
    };
    of_instances(alloc, &ground)?;
    Ok(nets)
}
