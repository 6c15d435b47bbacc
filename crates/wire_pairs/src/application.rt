//! The pairs of an application.

ghost use Rattle.std.specs.Prelude.{◌≡◌, Ok, Err, OnOk, IfOk};
ghost use Rattle.wire_pairs.specs.declared.facts.Unlinked.{Unlinked as UnlinkedOf};
ghost use Rattle.wire_pairs.specs.Pairs as spec;
ghost use Rattle.wire_pairs.specs.Lookup.{app_of};

use crate::boot::link_boots;
use crate::ends::Pair;
use crate::facts::{InstanceFacts, Stop};
use crate::lines::{declare_line, link_line};
use crate::lookup::Lookup;
use crate::seen::lines_at;
use std::alloc::Global;
use wire_instances::Made;
use wire_names::Places;
use wire_units::Loaded;

#[tactic(auto, using(crate::proofs::Steps::lines))]
fn link_instance(
    alloc: Global,
    app: &Lookup,
    instance: usize,
    done: &mut Vec<Pair>,
) -> Result<(), Stop>
    ensures linked { OnOk result (spec.instance_paired (app_of app.now) instance done.old.items ≡ Ok done.new.items) }
    ensures refused { (unlinked : UnlinkedOf) → result ≡ Err (Stop.Unlinked unlinked) → spec.instance_paired (app_of app.now) instance done.old.items ≡ Err unlinked }
{
    let mut scope = Places::new(alloc);
    let mut line = 0;
    for conf in lines_at(app, instance) {
        link_line(app, instance, line, &scope, conf, done)?;
        declare_line(app, instance, line, conf, &mut scope)?;
        line += 1;
    }
    Ok(())
}

#[tactic(auto, using(crate::proofs::Steps::instances))]
fn link_instances(alloc: Global, app: &Lookup, done: &mut Vec<Pair>) -> Result<(), Stop>
    ensures linked { OnOk result (spec.instances_paired (app_of app.now) 0 app.now.made.now done.old.items ≡ Ok done.new.items) }
    ensures refused { (unlinked : UnlinkedOf) → result ≡ Err (Stop.Unlinked unlinked) → spec.instances_paired (app_of app.now) 0 app.now.made.now done.old.items ≡ Err unlinked }
{
    let mut instance = 0;
    while instance < app.made.len() {
        link_instance(alloc, app, instance, done)?;
        instance += 1;
    }
    Ok(())
}

// The pairs of an application that is looked up.
fn linked(alloc: Global, app: &Lookup) -> Result<Vec<Pair>, Stop>
    ensures pairs { IfOk result (λ pairs. spec.pairs_of (app_of app.now) ≡ Ok pairs.items) }
    ensures refused { (unlinked : UnlinkedOf) → result ≡ Err (Stop.Unlinked unlinked) → spec.pairs_of (app_of app.now) ≡ Err unlinked }
{
    let mut pairs = Vec::new(alloc);
    link_boots(alloc, app, &mut pairs)?;
    link_instances(alloc, app, &mut pairs)?;
    Ok(pairs)
}

/// The pairs of ends that the wires of an application link, each in the direction of calls, by instance and place in the text.
/// `units` are its files and `made` its instances in the order of their creation; `facts` tells of each instance the types of its
/// elements and the constants of its lines. An application that is a module has each element that uses Boot linked to
/// `MainC.Boot`. Refuses the first line that is not fine: what its facts refuse; at the line an unknown name, then ends that do not
/// fit; then what stands in brackets.
pub fn pairs(
    alloc: Global,
    units: &[Loaded],
    made: &[Made],
    facts: &[InstanceFacts],
) -> Result<Vec<Pair>, Stop>
    ensures pairs { IfOk result (λ pairs. spec.pairs_of (record { units = units.now; made = made.now; facts = facts.now }) ≡ Ok pairs.items) }
    ensures refused { (unlinked : UnlinkedOf) → result ≡ Err (Stop.Unlinked unlinked) → spec.pairs_of (record { units = units.now; made = made.now; facts = facts.now }) ≡ Err unlinked }
{
    let app = Lookup::new(alloc, units, made, facts)?;
    linked(alloc, &app)
}
