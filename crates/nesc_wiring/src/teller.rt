//! What tells of types and constants, by the constants of `unique`.

ghost use Rattle.std.specs.Prelude.{◌≡◌, Ok, Err, IfOk};
ghost use Rattle.nm_base.specs.declared.fault.Fault.{Fault as FaultOf};
ghost use Rattle.wire_phases.specs.Faults.{IsRefusal};
ghost use Rattle.nesc_wiring.specs.Loads as spec;

use elab_application::early_envs;
use nm_base::Fault;
use std::alloc::Global;
use wire_instances::Made;
use wire_pairs::InstanceFacts;
use wire_phases::Telling;
use wire_told::{Sources, facts};
use wire_units::Loaded;

#[tactic(auto, using(crate::proofs::Telling::telling))]
fn told(alloc: Global, units: &[Loaded], made: &[Made]) -> Result<Vec<InstanceFacts>, Fault>
    ensures told { IfOk result (λ facts. spec.tells units.now made.now ≡ Ok facts.items) }
    ensures refused { (fault : FaultOf) → result ≡ Err fault → IsRefusal fault → spec.tells units.now made.now ≡ Err fault }
{
    let all = early_envs(alloc, units, made)?;
    let sources = Sources {
        units,
        made,
        headers: &all.headers,
        envs: all.envs.as_slice(),
    };
    facts(alloc, &sources)
}

/// Tells what the grammar of types and constants says, where each use of `unique` has its number.
#[derive(Debug, Clone, Copy)]
pub struct Teller;

impl Telling for Teller {
    ghost use Rattle.nesc_wiring.specs.Loads.{tells};

    ghost Tells = { tells };

    fn facts(
        &self,
        alloc: Global,
        units: &[Loaded],
        made: &[Made],
    ) -> Result<Vec<InstanceFacts>, Fault> {
        told(alloc, units, made)
    }
}
