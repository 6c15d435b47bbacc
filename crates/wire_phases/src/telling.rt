//! What tells of types and constants.

ghost use Rattle.std.specs.Prelude.{◌≡◌, Ok, Err, IfOk};
ghost use Rattle.nm_base.specs.declared.fault.Fault.{Fault as FaultOf};
ghost use Rattle.wire_phases.specs.Faults.{IsRefusal};
ghost use Rattle.wire_phases.specs.Wired.{Telling as TellingOf};

use nm_base::Fault;
use std::alloc::Global;
use wire_instances::Made;
use wire_pairs::InstanceFacts;
use wire_units::Loaded;

/// What tells of the types and constants of an application's instances what its wires need to know.
pub trait Telling {
    ghost Tells: { TellingOf };

    /// What is told of these instances, in their order, or the first refusal.
    fn facts(
        &self,
        alloc: Global,
        units: &[Loaded],
        made: &[Made],
    ) -> Result<Vec<InstanceFacts>, Fault>
        ensures told { IfOk result (λ facts. Tells units.now made.now ≡ Ok facts.items) }
        ensures refused { (fault : FaultOf) → result ≡ Err fault → IsRefusal fault → Tells units.now made.now ≡ Err fault };
}
