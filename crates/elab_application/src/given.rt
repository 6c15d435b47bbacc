//! What elaboration is given.

ghost use Rattle.std.specs.Prelude.{◌≡◌, Ok, IfOk, flat_map, map};
ghost use Rattle.body_meaning.specs.View.{decl_of};
ghost use Rattle.elab_meaning.specs.View.{unique_of, unique_count_of};
ghost use Rattle.wire_paths.specs.declared.wires.Way.TheVariants as way;
ghost use Rattle.wire_paths.specs.Wires.{wires_of};
ghost use Rattle.wire_facts.specs.Components.{components_of};
ghost use Rattle.wire_facts.specs.Seen as seen;
ghost use Rattle.wire_elements.specs.View.{early_env};
ghost use Rattle.wire_told.specs.View as view;
ghost use Rattle.elab_targets.specs.View.{application_of};
ghost use Rattle.elab_application.specs.Given as spec;

use crate::counts::counts_of;
use crate::ground::Ground;
use crate::headers::headers_of;
use crate::instances::instances_of;
use crate::seen::{early_envs, uniques_of};
use crate::structs::{header_structs, structs_behind};
use elab_meaning::{Unique, UniqueCount};
use elab_targets::Application;
use nesc_tree::Decl;
use nm_base::{List, NoMemory, beside};
use std::alloc::Global;
use wire_paths::Nets;
use wire_phases::Links;
use wire_told::{Sight, Sources, sight};
use wire_units::Loaded;

/// What is seen of an application whose wires were linked: it was seen before, so only memory can be missing.
pub fn seen_before(alloc: Global, sources: &Sources) -> Result<Sight, NoMemory>
    ensures { IfOk result (λ s. seen.sight_of (view.application_of sources.now) ≡ Ok (view.sight_of s)) }
{
    match sight(alloc, sources) {
        Ok(sight) => Ok(sight),
        Err(_) => Err(NoMemory),
    }
}

// What is given of headers.
#[derive(Drop)]
struct Headers<'u> {
    decls: Vec<&'u [Decl]>,
    uniques: List<Unique>,
    counts: List<UniqueCount>,
}

fn of_headers<'u>(
    alloc: Global,
    units: &'u [Loaded],
    sources: &Sources,
) -> Result<Headers<'u>, NoMemory>
    ensures decls { IfOk result (λ h. flat_map (λ ds. map decl_of ds.now) h.decls.items ≡ spec.decls_of (components_of units.now)) }
    ensures uniques { IfOk result (λ h. map unique_of h.uniques ≡ (early_env sources.now.headers.now).uniques) }
    ensures counts { IfOk result (λ h. map unique_count_of h.counts ≡ spec.counts_of (view.application_of sources.now)) }
{
    let decls = headers_of(alloc, units)?;
    let uniques = uniques_of(alloc, sources.headers)?;
    let counts = List::new(counts_of(alloc, sources)?);
    Ok(Headers {
        decls,
        uniques,
        counts,
    })
}

// The whole, where this is seen of the instances.
fn given_by<'u>(
    alloc: Global,
    ground: &Ground<'u, '_>,
    sources: &Sources,
    sight: &mut Sight,
) -> Result<Application<'u>, NoMemory>
    requires { sources.now.units.now ≡ ground.now.units.now }
    ensures { IfOk result (λ x. spec.IsGivenBy ground.now.units.now ground.now.made.now ground.now.pairs.now (view.application_of sources.now) (view.sight_of sight.old) (application_of x)) }
{
    let headers = of_headers(alloc, ground.units, sources)?;
    let first = header_structs(alloc, sources)?;
    let instances = instances_of(alloc, ground, sources, sight.seen.as_slice())?;
    let structs = structs_behind(alloc, sight, first);
    let (instances, structs) = beside(instances, structs)?;
    let Headers {
        decls,
        uniques,
        counts,
    } = headers;
    Ok(Application {
        headers: decls,
        uniques,
        counts,
        structs,
        instances,
    })
}

fn given_in<'u>(
    alloc: Global,
    ground: &Ground<'u, '_>,
    sources: &Sources,
) -> Result<Application<'u>, NoMemory>
    requires { sources.now.units.now ≡ ground.now.units.now }
    ensures { IfOk result (λ x. spec.IsGivenIn ground.now.units.now ground.now.made.now ground.now.pairs.now (view.application_of sources.now) (application_of x)) }
{
    let mut sight = seen_before(alloc, sources)?;
    given_by(alloc, ground, sources, &mut sight)
}

/// What elaboration is given, from the files of an application, its instances and pairs, and its wires in both directions: the declarations
/// of headers and modules, which are not copied, what is told of `unique`, the structs that wires met, what the parameters of generic
/// components stand for, and the ends that the wires reach from each element of a module (nesC 1.3 Reference, sections 5, 6 and 9).
/// One walk along the wires for each element, and one for each value of its parameter that a wire names.
#[tactic(auto, using(crate::proofs::Told::told))]
pub fn application<'u>(
    alloc: Global,
    units: &'u [Loaded],
    links: &Links,
    nets: &Nets,
) -> Result<Application<'u>, NoMemory>
    requires calls { nets.now.calls.wires.items ≡ wires_of way.Calls links.now.pairs.items }
    requires signals { nets.now.signals.wires.items ≡ wires_of way.Signals links.now.pairs.items }
    ensures { IfOk result (λ x. spec.IsGiven units.now links.now.made.items links.now.pairs.items (application_of x)) }
{
    let made = links.made.as_slice();
    let ground = Ground::new(alloc, units, made, links.pairs.as_slice(), nets)?;
    let envs = early_envs(alloc, units, made)?;
    let sources = Sources {
        units,
        made,
        headers: &envs.headers,
        envs: envs.envs.as_slice(),
    };
    given_in(alloc, &ground, &sources)
}
