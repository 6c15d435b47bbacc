//! The wires of an application in one direction.

ghost use Rattle.std.specs.Prelude.{◌≡◌, IfOk, OnOk};
ghost use Rattle.wire_targets.specs.Next.{IsTableOf};
ghost use Rattle.wire_paths.specs.Wires as spec;

use crate::wires::{Way, wires_of};
use indexmap::IndexSet;
use nm_base::{List, NoMemory};
use std::alloc::Global;
use wire_pairs::Pair;
use wire_targets::{End, Stop, Table, Wire};

fn add_value(values: &mut IndexSet<u16>, param: Option<u16>) -> Result<(), NoMemory>
    ensures { OnOk result (values.new.keys ≡ spec.with_value param values.old.keys) }
{
    if let Some(value) = param {
        values.insert(value)?;
    }
    Ok(())
}

// The values that brackets name where these wires begin.
fn values_of(alloc: Global, wires: &[Wire]) -> Result<IndexSet<u16>, NoMemory>
    ensures { IfOk result (λ values. values.keys ≡ spec.values_of wires.now) }
{
    let mut values = IndexSet::new(alloc);
    let mut rest = wires;
    while let Some((wire, more)) = rest.split_first() {
        add_value(&mut values, wire.from.param)?;
        rest = more;
    }
    Ok(values)
}

/// The wires of an application in one direction, with a table of them, and the values that brackets name where they begin.
#[derive(Drop)]
pub struct Net {
    pub wires: Vec<Wire>,
    table: Table,
    values: IndexSet<u16>,
    ghost tabled: { IsTableOf wires.items table },
    ghost named: { values.keys ≡ spec.values_of wires.items },
}

impl Net {
    ghost use Rattle.std.specs.Prelude.{◌≡◌, ℕ, Err, IfOk};
    ghost use Rattle.wire_targets.specs.declared.walk.Stop.TheVariants as stop;
    ghost use Rattle.wire_targets.specs.Targets.{AreTargets, IsFirstLoop, AreTooMany};
    ghost use Rattle.wire_paths.specs.Wires as spec;

    /// The wires of these pairs, in time linear in their number.
    pub fn new(alloc: Global, way: Way, pairs: &[Pair]) -> Result<Net, NoMemory>
        ensures { IfOk result (λ net. net.wires.items ≡ spec.wires_of way pairs.now) }
    {
        let wires = wires_of(alloc, way, pairs)?;
        let table = Table::new(alloc, wires.as_slice())?;
        let values = values_of(alloc, wires.as_slice())?;
        Ok(Net {
            wires,
            table,
            values,
        })
    }

    /// The values that brackets name.
    pub fn values(&self) -> &[u16]
        ensures { result.now ≡ spec.values_of self.now.wires.items }
    {
        self.values.as_slice()
    }

    /// The ends that implement an item and that paths reach from this end, in the order of the wires along the paths; `sinks` tells
    /// for each element of each instance whether the item is implemented there. Refuses the first path that meets an end twice, and
    /// more ends than `MAX_WIRES`.
    pub fn targets(&self, alloc: Global, sinks: &[List<bool>], start: End) -> Result<Vec<End>, Stop>
        ensures targets { IfOk result (λ found. AreTargets self.now.wires.items sinks.now start found.items) }
        ensures closes { (k : ℕ) → result ≡ Err (stop.Loop k) → IsFirstLoop self.now.wires.items start k }
        ensures many { result ≡ Err stop.Wires → AreTooMany self.now.wires.items start }
    {
        wire_targets::targets(alloc, self.wires.as_slice(), &self.table, sinks, start)
    }
}
