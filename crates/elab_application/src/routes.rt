//! The wires of one direction with the elements at which they end.

ghost use Rattle.std.specs.Prelude.{◌≡◌, IfOk};
ghost use Rattle.elab_application.specs.Ends as spec;

use crate::components::{elems_of, file_of};
use nesc_tree::Elem;
use nm_base::{List, NoMemory};
use std::alloc::Global;
use wire_instances::Made;
use wire_paths::{Net, Way};
use wire_units::Loaded;

/// The wires of one direction, and for each element of each instance whether what goes along them ends there.
#[derive(Drop)]
pub struct Routes<'n> {
    pub net: &'n Net,
    pub sinks: Vec<List<bool>>,
}

fn is_sink(way: Way, provides: bool) -> bool
    ensures { result ≡ spec.is_sink way provides }
{
    match way {
        Way::Calls => provides,
        Way::Signals => !provides,
    }
}

fn sinks_in(alloc: Global, way: Way, elems: &[Elem]) -> Result<Vec<bool>, NoMemory>
    ensures { IfOk result (λ v. v.items ≡ spec.sinks_in way elems.now) }
{
    let mut sinks = Vec::new(alloc);
    for elem in elems {
        sinks.push(is_sink(way, elem.provides))?;
    }
    Ok(sinks)
}

/// The elements of modules at which calls, or signals, end.
pub fn sinks_of(
    alloc: Global,
    way: Way,
    units: &[Loaded],
    made: &[Made],
) -> Result<Vec<List<bool>>, NoMemory>
    ensures { IfOk result (λ v. v.items ≡ spec.sinks_of way units.now made.now) }
{
    let mut sinks = Vec::new(alloc);
    for one in made {
        let elems = elems_of(file_of(units, one));
        sinks.push(List::new(sinks_in(alloc, way, elems)?))?;
    }
    Ok(sinks)
}
