//! From the files, instances and wires of an application to its program.

ghost use Rattle.std.specs.Prelude.{◌≡◌, Ok, Err, IfOk};
ghost use Rattle.nm_base.specs.declared.fault.Fault.{Fault as FaultOf};
ghost use Rattle.nesc_core.specs.View.{program_of};
ghost use Rattle.nesc_core.specs.WellFormed.{IsWellFormed};
ghost use Rattle.wire_paths.specs.declared.wires.Way.TheVariants as way;
ghost use Rattle.wire_paths.specs.Wires.{wires_of};
ghost use Rattle.wire_phases.specs.Faults.{IsRefusal};
ghost use Rattle.nesc_elab.specs.Elaborates as spec;

use crate::application::wired;
use elab_application::application;
use nesc_core::Program;
use nm_base::Fault;
use std::alloc::Global;
use wire_paths::Nets;
use wire_phases::Links;
use wire_units::Loaded;

/// The wired program of an application, which is well formed, from what its files hold, its instances with their pairs, and its wires in
/// both directions; or the first refusal of its declarations: headers in reading order, then the modules of instances, each by its text,
/// then the limits of the whole (nesC 1.3 Reference; C99, 6.7 to 6.9).
#[tactic(auto, using(crate::proofs::Elaborated::elaborated))]
pub fn elaborate(
    alloc: Global,
    units: &[Loaded],
    links: &Links,
    nets: &Nets,
) -> Result<Program, Fault>
    requires calls { nets.now.calls.wires.items ≡ wires_of way.Calls links.now.pairs.items }
    requires signals { nets.now.signals.wires.items ≡ wires_of way.Signals links.now.pairs.items }
    ensures program { IfOk result (λ p. spec.Elaborates units.now links.now.made.items links.now.pairs.items (Ok (program_of p))) }
    ensures formed { IfOk result (λ p. IsWellFormed (program_of p)) }
    ensures refused { (fault : FaultOf) → result ≡ Err fault → IsRefusal fault → spec.Elaborates units.now links.now.made.items links.now.pairs.items (Err fault) }
{
    let app = application(alloc, units, links, nets)?;
    wired(alloc, &app)
}
