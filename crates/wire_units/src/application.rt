//! The instances of an application.

ghost use Rattle.std.specs.Prelude.{◌≡◌, ◌<◌, Ok, Err, IfOk, length, slice_index_or};
ghost use Rattle.wire_instances.specs.declared.naming.Stop.{Stop as StopOf};
ghost use Rattle.wire_instances.specs.Instances.{IsRefusal};
ghost use Rattle.wire_units.specs.Plans.{created_of};

use crate::loaded::Loaded;
use crate::plan::plans_of;
use nm_base::Pos;
use std::alloc::Global;
use wire_instances::{Made, Stop};

/// The instances of the application in the order of their creation, each with its component's file, its number among the
/// instances of this component and the line that made it. `at` is the place of the application's name, and the component of
/// file `main` is created last where no component names it. Refuses at the first place in the order of creation: an unknown
/// name, a name that is declared twice, a generic component's creation inside its own, arguments that do not fit in number,
/// or an instance more than `MAX_INSTANCES`.
pub fn instances(
    alloc: Global,
    units: &[Loaded],
    app: usize,
    at: Pos,
    main: usize,
) -> Result<Vec<Made>, Stop>
    ensures instances { IfOk result (λ made. created_of units.now app at main ≡ Ok made.items) }
    ensures refused { (stop : StopOf) → result ≡ Err stop → IsRefusal stop → created_of units.now app at main ≡ Err stop }
{
    let plans = plans_of(alloc, units)?;
    wire_instances::instances(alloc, plans.as_slice(), app, at, main)
}
