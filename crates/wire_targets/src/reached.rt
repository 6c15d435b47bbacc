//! The targets of an item.

ghost use Rattle.std.specs.Prelude.{◌≡◌, ℕ, Err, IfOk};
ghost use Rattle.wire_targets.specs.Next.{IsTableOf};
ghost use Rattle.wire_targets.specs.Targets.{AreTargets, IsFirstLoop, AreTooMany};

use crate::end::{End, Wire};
use crate::table::Table;
use crate::walk::{Stop, Walk};
use nm_base::List;
use std::alloc::Global;

/// The ends that implement an item and that paths of wires reach from this end, in the order of the wires along the paths, each
/// with the value of its parameter. `sinks` tells for each element of each instance whether calls of the item end there. Two equal
/// wires give an end twice. Refuses the first path that meets an end twice, and more ends than `MAX_WIRES`.
pub fn targets(
    alloc: Global,
    wires: &[Wire],
    table: &Table,
    sinks: &[List<bool>],
    start: End,
) -> Result<Vec<End>, Stop>
    requires { IsTableOf wires.now table.now }
    ensures targets { IfOk result (λ found. AreTargets wires.now sinks.now start found.items) }
    ensures closes { (k : ℕ) → result ≡ Err (Stop.Loop k) → IsFirstLoop wires.now start k }
    ensures many { result ≡ Err Stop.Wires → AreTooMany wires.now start }
{
    let mut walk = Walk::new(alloc, start, table.first(wires, &start), sinks)?;
    while walk.advance(wires, table, sinks)? {}
    Ok(walk.found)
}
