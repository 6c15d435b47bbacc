//! The instances of an application, with refusals as faults.

ghost use Rattle.std.specs.Prelude.{◌≡◌, codes, Ok, Err, IfOk};
ghost use Rattle.nm_base.specs.declared.fault.Fault.{Fault as FaultOf};
ghost use Rattle.wire_units.specs.Units.{name_of, is_named};
ghost use Rattle.wire_phases.specs.Faults.{IsRefusal};
ghost use Rattle.wire_phases.specs.Wired as spec;

use crate::faults::creation_fault;
use nesc_tree::Part;
use nm_base::{Fault, Pos};
use std::alloc::Global;
use wire_instances::Made;
use wire_units::{Loaded, instances};

/// The file of the application is the first behind the prelude.
const APPLICATION: usize = 1;

fn place_of(units: &[Loaded]) -> Pos
    ensures { result ≡ spec.place_of units.now }
{
    match units.get(APPLICATION) {
        Some(loaded) => loaded.at,
        None => Pos {
            file: 0,
            line: 1,
            col: 1,
        },
    }
}

fn is_main(part: &Part) -> bool
    ensures { result ≡ is_named (codes "MainC") (name_of part.now) }
{
    match part {
        Part::Interface(interface) => b"MainC".as_slice() == interface.name.as_bytes(),
        Part::Module(module) => b"MainC".as_slice() == module.head.name.as_bytes(),
        Part::Config(config) => b"MainC".as_slice() == config.head.name.as_bytes(),
        Part::Header => false,
    }
}

fn main_of(units: &[Loaded]) -> usize
    ensures { result ≡ spec.main_of units.now }
{
    let mut at = 0;
    let mut rest = units;
    while let Some((loaded, more)) = rest.split_first() {
        if is_main(&loaded.unit.part) {
            return at;
        }
        at += 1;
        rest = more;
    }
    0
}

/// The instances of the application that these files hold, the prelude first and then its own file, in the order of their creation.
/// Refuses at the first place in this order, with E12, E13, E15, E18 or Limit(Instances).
#[tactic(auto, using(crate::proofs::Refusals::refusals))]
pub fn created(alloc: Global, units: &[Loaded]) -> Result<Vec<Made>, Fault>
    ensures created { IfOk result (λ made. spec.created units.now ≡ Ok made.items) }
    ensures refused { (fault : FaultOf) → result ≡ Err fault → IsRefusal fault → spec.created units.now ≡ Err fault }
{
    match instances(alloc, units, APPLICATION, place_of(units), main_of(units)) {
        Ok(made) => Ok(made),
        Err(stop) => Err(creation_fault(stop)),
    }
}
