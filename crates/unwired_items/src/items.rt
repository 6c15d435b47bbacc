//! What an application lacks, whose wires are linked.

ghost use Rattle.std.specs.Prelude.{◌≡◌, Ok, Err, IfOk, map};
ghost use Rattle.nm_base.specs.declared.fault.Fault.{Fault as FaultOf};
ghost use Rattle.elab_meaning.specs.Answers.{Follows};
ghost use Rattle.elab_targets.specs.View.{instance_of};
ghost use Rattle.wire_paths.specs.declared.wires.Way.TheVariants as way;
ghost use Rattle.wire_paths.specs.Wires.{wires_of};
ghost use Rattle.wire_phases.specs.Faults.{IsRefusal};
ghost use Rattle.wire_told.specs.View.{application_of, sight_of};
ghost use Rattle.unwired_items.specs.Unwired as spec;

use crate::instances::{Ground, refuse_first_unwired};
use elab_application::{application, early_envs, header_work, seen_before};
use elab_targets::{Application, Instance};
use nm_base::Fault;
use std::alloc::Global;
use wire_paths::Nets;
use wire_phases::Links;
use wire_scopes::base_of;
use wire_told::{Sight, Sources};
use wire_units::Loaded;

// Where no line is refused.
fn refuse_behind_lines(
    alloc: Global,
    sources: &Sources,
    sight: &mut Sight,
    instances: &[Instance],
) -> Result<(), Fault>
    ensures { Follows (λ x. x) result (spec.reached (application_of sources.now) (map instance_of instances.now) (sight_of sight.old)) }
{
    if !sight.is_whole {
        return Ok(());
    }
    let base = base_of(&header_work(alloc, sources)?);
    let ground = Ground {
        sources,
        base,
        seen: sight.seen.as_slice(),
    };
    refuse_first_unwired(alloc, &ground, instances, &mut sight.work)
}

// Of an application that is given so.
#[tactic(auto, using(crate::proofs::Reached::reaches))]
fn refuse_in(alloc: Global, sources: &Sources, app: &Application) -> Result<(), Fault>
    ensures reached { IfOk result (λ _. spec.ReachesIn (application_of sources.now) (map instance_of app.now.instances.items) (Ok tt)) }
    ensures refused { (fault : FaultOf) → result ≡ Err fault → IsRefusal fault → spec.ReachesIn (application_of sources.now) (map instance_of app.now.instances.items) (Err fault) }
{
    let mut sight = seen_before(alloc, sources)?;
    refuse_behind_lines(alloc, sources, &mut sight, app.instances.as_slice())
}

/// Refuses the first place, in the order of creation and of the text, at which an instance lacks something: an element some item of which its
/// module must implement and does not, or a call or signal that reaches nothing and has no default (nesC 1.3 Reference, 4 to 6 and 9).
/// Time grows with the declarations of all instances. Want of memory may come instead.
#[tactic(auto, using(crate::proofs::Reached::reaches))]
pub fn refuse_unwired(
    alloc: Global,
    units: &[Loaded],
    links: &Links,
    nets: &Nets,
) -> Result<(), Fault>
    requires calls { nets.now.calls.wires.items ≡ wires_of way.Calls links.now.pairs.items }
    requires signals { nets.now.signals.wires.items ≡ wires_of way.Signals links.now.pairs.items }
    ensures reached { IfOk result (λ _. spec.Reaches units.now links.now.made.items links.now.pairs.items (Ok tt)) }
    ensures refused { (fault : FaultOf) → result ≡ Err fault → IsRefusal fault → spec.Reaches units.now links.now.made.items links.now.pairs.items (Err fault) }
{
    let app = application(alloc, units, links, nets)?;
    let made = links.made.as_slice();
    let envs = early_envs(alloc, units, made)?;
    let sources = Sources {
        units,
        made,
        headers: &envs.headers,
        envs: envs.envs.as_slice(),
    };
    refuse_in(alloc, &sources, &app)
}
