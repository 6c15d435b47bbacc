//! The paths from an end.

ghost use Rattle.std.specs.Prelude.{◌≡◌, Ok, Err, OnOk};
ghost use Rattle.nm_base.specs.declared.fault.Fault.{Fault as FaultOf};
ghost use Rattle.wire_paths.specs.Answers.{IsRefusal};
ghost use Rattle.wire_paths.specs.Wires.{values_of};
ghost use Rattle.wire_paths.specs.Paths as spec;

use crate::net::Net;
use nm_base::{Fault, Limit, MAX_WIRES, Pos, Refusal, Which};
use std::alloc::Global;
use wire_pairs::Pair;
use wire_targets::{End, Stop};

fn place_of(pairs: &[Pair], wire: usize) -> Pos
    ensures { result ≡ spec.place_of pairs.now wire }
{
    match pairs.get(wire) {
        Some(pair) => pair.pos,
        None => Pos {
            file: 0,
            line: 1,
            col: 1,
        },
    }
}

fn stop_fault(pairs: &[Pair], stop: Stop) -> Fault
    ensures { result ≡ spec.stop_fault pairs.now stop }
{
    match stop {
        Stop::Loop(wire) => Fault::Refused(Refusal::ComponentLoop(place_of(pairs, wire))),
        Stop::Wires => Fault::Limit(Limit {
            which: Which::Wires,
            have: MAX_WIRES + 1,
        }),
        Stop::NoMemory => Fault::NoMemory,
    }
}

// Follows the paths from an end.
#[tactic(auto, using(crate::proofs::Steps::ends))]
fn of_end(alloc: Global, pairs: &[Pair], net: &Net, start: End) -> Result<(), Fault>
    ensures passed { OnOk result (spec.OfEnd pairs.now net.now.wires.items start (Ok tt)) }
    ensures refused { (fault : FaultOf) → result ≡ Err fault → IsRefusal fault → spec.OfEnd pairs.now net.now.wires.items start (Err fault) }
{
    match net.targets(alloc, &[], start) {
        Ok(_) => Ok(()),
        Err(stop) => Err(stop_fault(pairs, stop)),
    }
}

/// An element of an instance, by numbers.
#[derive(Debug, Clone, Copy)]
pub struct Place {
    pub instance: u32,
    pub element: u32,
}

fn at_value(
    alloc: Global,
    pairs: &[Pair],
    net: &Net,
    place: Place,
    greatest: u16,
    value: u16,
) -> Result<(), Fault>
    ensures passed { OnOk result (spec.AtValue pairs.now net.now.wires.items place.instance place.element greatest value (Ok tt)) }
    ensures refused { (fault : FaultOf) → result ≡ Err fault → IsRefusal fault → spec.AtValue pairs.now net.now.wires.items place.instance place.element greatest value (Err fault) }
{
    if value <= greatest {
        let start = End {
            instance: place.instance,
            element: place.element,
            param: Some(value),
        };
        of_end(alloc, pairs, net, start)
    } else {
        Ok(())
    }
}

#[tactic(auto, using(crate::proofs::Steps::values))]
fn at_values(
    alloc: Global,
    pairs: &[Pair],
    net: &Net,
    place: Place,
    greatest: u16,
) -> Result<(), Fault>
    ensures passed { OnOk result (spec.AtValues pairs.now net.now.wires.items place.instance place.element greatest (values_of net.now.wires.items) (Ok tt)) }
    ensures refused { (fault : FaultOf) → result ≡ Err fault → IsRefusal fault → spec.AtValues pairs.now net.now.wires.items place.instance place.element greatest (values_of net.now.wires.items) (Err fault) }
{
    let mut rest = net.values();
    while let Some((value, more)) = rest.split_first() {
        at_value(alloc, pairs, net, place, greatest, *value)?;
        rest = more;
    }
    let start = End {
        instance: place.instance,
        element: place.element,
        param: None,
    };
    of_end(alloc, pairs, net, start)
}

/// Follows the paths from an element, with each value of its parameter that a bracket names, and then with any other.
pub fn at_element(
    alloc: Global,
    pairs: &[Pair],
    net: &Net,
    place: Place,
    greatest: Option<u16>,
) -> Result<(), Fault>
    ensures passed { OnOk result (spec.AtElement pairs.now net.now.wires.items place.instance place.element greatest (Ok tt)) }
    ensures refused { (fault : FaultOf) → result ≡ Err fault → IsRefusal fault → spec.AtElement pairs.now net.now.wires.items place.instance place.element greatest (Err fault) }
{
    match greatest {
        Some(greatest) => at_values(alloc, pairs, net, place, greatest),
        None => {
            let start = End {
                instance: place.instance,
                element: place.element,
                param: None,
            };
            of_end(alloc, pairs, net, start)
        }
    }
}
