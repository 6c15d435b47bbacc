//! An application from its files.

ghost use Rattle.std.specs.Prelude.{◌≡◌, Some, Ok, Err, IfOk, IfErr};
ghost use Rattle.nm_base.specs.declared.fault.Fault.{Fault as FaultOf};
ghost use Rattle.wire_reading.specs.Order.{IsRefusal};
ghost use Rattle.wire_reading.specs.Told.{Told, Counts};
ghost use Rattle.wire_paths.specs.declared.wires.Way.TheVariants as way;
ghost use Rattle.wire_paths.specs.Wires.{wires_of};
ghost use Rattle.wire_phases.specs.Wired.{wired};
ghost use Rattle.wire_phases.specs.Closed.{Wires};
ghost use Rattle.unwired_items.specs.Unwired.{Reaches};
ghost use Rattle.wire_loading.specs.declared.stopped.Stopped.{Stopped as StoppedOf};
ghost use Rattle.wire_loading.specs.Opened.{answer_of};
ghost use Rattle.nesc_wiring.specs.Loads as spec;
ghost use Rattle.nesc_wiring.specs.Loads.{Loads, IsInside};

use crate::teller::Teller;
use crate::wiring::Wiring;
use nm_base::{Fault, Files, Name};
use std::alloc::Global;
use unwired_items::refuse_unwired;
use wire_loading::{Loader, Stopped, UnitParser, read_application};
use wire_phases::{Network, closed};
use wire_units::Loaded;

/// A fault of a phase behind reading: none reads a file, so none has these two; that rules of types have none of them is said by no clause.
pub fn inside(fault: Fault) -> Fault
    ensures inside { IsInside result }
    ensures same { IsRefusal result → result ≡ fault }
{
    match fault {
        Fault::ReadFault | Fault::Missing(_) => Fault::NoMemory,
        fault => fault,
    }
}

// Instances, wires and their paths.
fn linked(alloc: Global, units: &[Loaded]) -> Result<Network, Fault>
    ensures wires { IfOk result (λ w. Wires spec.tells units.now (Ok (wired units.now w.links.made.items w.links.facts.items w.links.pairs.items))) }
    ensures calls { IfOk result (λ w. w.nets.calls.wires.items ≡ wires_of way.Calls w.links.pairs.items) }
    ensures signals { IfOk result (λ w. w.nets.signals.wires.items ≡ wires_of way.Signals w.links.pairs.items) }
    ensures refused { (fault : FaultOf) → result ≡ Err fault → IsRefusal fault → Wires spec.tells units.now (Err fault) }
    ensures inside { IfErr result IsInside }
{
    match closed(alloc, &Teller, units) {
        Ok(network) => Ok(network),
        Err(fault) => Err(inside(fault)),
    }
}

// What is linked, where no instance lacks anything.
fn whole(alloc: Global, units: &[Loaded], network: Network) -> Result<Network, Fault>
    requires calls { network.nets.calls.wires.items ≡ wires_of way.Calls network.links.pairs.items }
    requires signals { network.nets.signals.wires.items ≡ wires_of way.Signals network.links.pairs.items }
    ensures same { IfOk result (λ w. w ≡ network) }
    ensures reached { IfOk result (λ _. Reaches units.now network.links.made.items network.links.pairs.items (Ok tt)) }
    ensures refused { (fault : FaultOf) → result ≡ Err fault → IsRefusal fault → Reaches units.now network.links.made.items network.links.pairs.items (Err fault) }
    ensures inside { IfErr result IsInside }
{
    match refuse_unwired(alloc, units, &network.links, &network.nets) {
        Ok(()) => Ok(network),
        Err(fault) => Err(inside(fault)),
    }
}

// The phases behind reading.
#[tactic(auto, using(crate::proofs::Behind::items))]
fn network_of(alloc: Global, units: &[Loaded]) -> Result<Network, Fault>
    ensures wired { IfOk result (λ w. spec.IsWired units.now (Ok (wired units.now w.links.made.items w.links.facts.items w.links.pairs.items))) }
    ensures calls { IfOk result (λ w. w.nets.calls.wires.items ≡ wires_of way.Calls w.links.pairs.items) }
    ensures signals { IfOk result (λ w. w.nets.signals.wires.items ≡ wires_of way.Signals w.links.pairs.items) }
    ensures refused { (fault : FaultOf) → result ≡ Err fault → IsRefusal fault → spec.IsWired units.now (Err fault) }
    ensures inside { IfErr result IsInside }
{
    let network = linked(alloc, units)?;
    whole(alloc, units, network)
}

/// Reads the files of an application with this parser and wires it: its instances and pairs, with its wires in both directions. Refuses at the
/// first phase that finds something, at the first place of that phase: reading, creation, types and constants that wires need to
/// know, wires, paths, items that instances lack. A file that is missing, or that cannot be read, is told as such. With the refusal come the files that were
/// read by then, in which its place has the number of one.
#[tactic(auto, using(crate::proofs::Behind::phases))]
pub fn load<F: Files, P: UnitParser>(
    alloc: Global,
    files: &mut F,
    parser: P,
    app: &Name,
) -> Result<Wiring, Stopped>
    ensures outside { Counts (answer_of result) (F.seen files.old) (F.seen files.new) }
    ensures loaded { (told : Told) → (F.seen files.old).texts ≡ Some told → IfOk result (λ w. Loads P.Declares P.Parses told app.now (Ok (spec.wiring w.reading w.units.items w.links.made.items w.links.facts.items w.links.pairs.items))) }
    ensures calls { IfOk result (λ w. w.nets.calls.wires.items ≡ wires_of way.Calls w.links.pairs.items) }
    ensures signals { IfOk result (λ w. w.nets.signals.wires.items ≡ wires_of way.Signals w.links.pairs.items) }
    ensures refused { (told : Told) → (F.seen files.old).texts ≡ Some told → (stopped : StoppedOf) → result ≡ Err stopped → IsRefusal stopped.fault → Loads P.Declares P.Parses told app.now (Err stopped) }
{
    let Loader { reading, units, .. } = read_application(alloc, files, parser, app)?;
    match network_of(alloc, units.as_slice()) {
        Ok(Network { links, nets }) => Ok(Wiring {
            reading,
            units,
            links,
            nets,
        }),
        Err(fault) => Err(Stopped { fault, reading }),
    }
}
