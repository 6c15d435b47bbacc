//! The items of all elements of an instance.

ghost use Rattle.std.specs.Prelude.{◌≡◌, ◌++◌, IfOk, [], List, map};
ghost use Rattle.elab_facts.specs.View.{fact_of};
ghost use Rattle.elab_meaning.specs.Answers.{Gives};
ghost use Rattle.elab_meaning.specs.Elab.{State};
ghost use Rattle.elab_meaning.specs.View.{entry_of, env_of, state_of};
ghost use Rattle.elab_kept.specs.Grows.{IsPrefix};
ghost use Rattle.elab_targets.specs.Starts.{AreTables};
ghost use Rattle.elab_targets.specs.View.{application_of, element_of};
ghost use Rattle.wire_facts.specs.Scopes as scopes;
ghost use Rattle.wire_scopes.specs.View.{base_view, own_of};
ghost use Rattle.program_meaning.specs.Items as spec;
ghost use Rattle.elab_items.specs.Parts as parts;

use crate::ground::Ground;
use crate::items::items;
use crate::parameters::arguments;
use elab_exprs::Told;
use elab_facts::Fact;
use elab_meaning::{Entry, Work};
use elab_targets::Element;
use nm_base::{Fault, NoMemory, beside};
use std::alloc::Global;
use wire_scopes::{Base, Own, Scope, declaring, exchange};

// The scope of an interface, which sees the headers and its own parameters.
fn interface_scope(alloc: Global, base: Base, params: Vec<Entry>) -> Own
    ensures { own_of result ≡ scopes.declaring (base_view base) (parts.interface_scope (map entry_of params.items)) }
{
    declaring(
        base,
        Scope {
            names: params,
            tags: Vec::new(alloc),
        },
    )
}

fn in_interface(
    alloc: Global,
    ground: &Ground,
    told: &Told,
    work: &mut Work,
    base: Base,
    x: &Element,
    params: Vec<Entry>,
) -> Result<Vec<Fact>, Fault>
    ensures { AreTables (application_of ground.now.app.now) ground.now.tables.now → Gives (λ v. map fact_of v.items) result (state_of work.new) (parts.in_interface (base_view base) (map entry_of params.items) (parts.items_of (application_of ground.now.app.now) (env_of told.now.env) told.now.values ground.now.instance (element_of x.now) (element_of x.now).interface.items) (state_of work.old)) }
{
    let was = exchange(work, base, interface_scope(alloc, base, params))?;
    let (was, facts) = beside(was, items(alloc, ground, told, work, x, x.items))?;
    let (facts, _) = beside(facts, exchange(work, base, was))?;
    Ok(facts)
}

fn element_facts(
    alloc: Global,
    ground: &Ground,
    told: &Told,
    work: &mut Work,
    base: Base,
    x: &Element,
) -> Result<Vec<Fact>, Fault>
    ensures { AreTables (application_of ground.now.app.now) ground.now.tables.now → Gives (λ v. map fact_of v.items) result (state_of work.new) (parts.facts_of_element (application_of ground.now.app.now) (env_of told.now.env) told.now.values (base_view base) ground.now.instance (element_of x.now) (state_of work.old)) }
{
    let params = arguments(alloc, told, work, x.at, x.params, x.args)?;
    in_interface(alloc, ground, told, work, base, x, params)
}

fn add_facts(all: &mut Vec<Fact>, more: Vec<Fact>) -> Result<(), NoMemory>
    ensures { IfOk result (λ _. map fact_of all.new.items ≡ map fact_of all.old.items ++ map fact_of more.items) }
{
    let mut more = more;
    all.append(&mut more)?;
    Ok(())
}

#[tactic(auto, using(crate::proofs::Loops::element_lists))]
fn all_elements(
    alloc: Global,
    ground: &Ground,
    told: &Told,
    work: &mut Work,
    base: Base,
    elems: &[Element],
) -> Result<Vec<Fact>, Fault>
    ensures { AreTables (application_of ground.now.app.now) ground.now.tables.now → Gives (λ v. map fact_of v.items) result (state_of work.new) (parts.facts_of (application_of ground.now.app.now) (env_of told.now.env) told.now.values (base_view base) ground.now.instance (map element_of elems.now) (state_of work.old)) }
{
    let mut facts = Vec::new(alloc);
    for x in elems {
        let more = element_facts(alloc, ground, told, work, base, x)?;
        add_facts(&mut facts, more)?;
    }
    Ok(facts)
}

/// What is known of the items of an instance's elements, in their order, where the names and tags of headers are the first that are in force:
/// an interface sees these and its own parameters. Errors: those of types, at the element or the item.
#[tactic(auto, using(crate::proofs::Meaning::facts))]
pub fn facts_of(
    alloc: Global,
    ground: &Ground,
    told: &Told,
    work: &mut Work,
    base: Base,
    elems: &[Element],
) -> Result<Vec<Fact>, Fault>
    ensures { AreTables (application_of ground.now.app.now) ground.now.tables.now → (headers : State) → told.now.values ≡ [] → base_view base ≡ scopes.base_of headers → IsPrefix headers.names (state_of work.old).names → IsPrefix headers.tags (state_of work.old).tags → Gives (λ v. map fact_of v.items) result (state_of work.new) (spec.facts_of (application_of ground.now.app.now) (env_of told.now.env) headers ground.now.instance (map element_of elems.now) (state_of work.old)) }
{
    all_elements(alloc, ground, told, work, base, elems)
}
