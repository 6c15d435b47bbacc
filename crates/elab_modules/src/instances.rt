//! The declarations of instances, one behind the other, each in a scope of its own.

ghost use Rattle.std.specs.Prelude.{◌≡◌, Some, slice_get, map};
ghost use Rattle.body_meaning.specs.View.{decl_of};
ghost use Rattle.elab_facts.specs.View.{fact_of};
ghost use Rattle.elab_making.specs.Does.{Does};
ghost use Rattle.elab_making.specs.View.{whole_of};
ghost use Rattle.elab_pieces.specs.Flow.{outer, outer_of};
ghost use Rattle.elab_rules.specs.Tells.{Tells};
ghost use Rattle.elab_targets.specs.Starts.{AreTables};
ghost use Rattle.elab_targets.specs.View.{application_of, instance_of};
ghost use Rattle.elab_told.specs.View.{met_of};
ghost use Rattle.program_meaning.specs.Making as plain;
ghost use Rattle.program_meaning.specs.Modules as spec;
ghost use Rattle.program_meaning.specs.Walk.{Told};
ghost use Rattle.elab_modules.specs.Behind as parts;
ghost use Rattle.elab_modules.specs.Behind.{AreBehind, Has};

use crate::around::{Around, base_of};
use elab_facts::Fact;
use elab_items::{Ground, facts_of};
use elab_making::Whole;
use elab_pieces::{Outer, enter, leave};
use elab_rules::ModuleTold;
use elab_targets::Instance;
use elab_told::{Met, given_names, head_told, instance_told, instance_uses};
use elab_walk::declarations;
use nesc_tree::Decl;
use nm_base::Fault;
use std::alloc::Global;

// What is known of the items of its elements.
#[tactic(auto, using(crate::proofs::Chains::premises))]
fn instance_facts(
    alloc: Global,
    around: &Around,
    whole: &mut Whole,
    number: u32,
    instance: &Instance,
) -> Result<Vec<Fact>, Fault>
    ensures { AreTables (application_of around.now.app.now) around.now.tables.now → (h : plain.Whole) → AreBehind around.now h → Has h.work (whole_of whole.old).work → Does (λ v. map fact_of v.items) result (whole_of whole.new) (parts.instance_facts (application_of around.now.app.now) h number (instance_of instance.now) (whole_of whole.old)) }
{
    let told = head_told(alloc, around.app, around.tables, number, instance)?;
    let ground = Ground {
        app: around.app,
        tables: around.tables,
        instance: number,
    };
    let base = base_of(around.outer);
    let elems = instance.elems.as_slice();
    facts_of(alloc, &ground, &told, &mut whole.work, base, elems)
}

// Declarations in a scope of their own, behind which the names and tags of headers alone are in force.
#[tactic(auto, using(crate::proofs::Chains::premises))]
fn declared_inside(
    alloc: Global,
    told: &ModuleTold,
    headers: Outer,
    whole: &mut Whole,
    decls: &[Decl],
) -> Result<(), Fault>
    ensures { (t : Told) (h : plain.Whole) → Tells told.now t → outer h.work ≡ outer_of headers → Does (λ _. tt) result (whole_of whole.new) (parts.declared_inside h t (map decl_of decls.now) (whole_of whole.old)) }
{
    enter(&mut whole.work);
    declarations(alloc, told, whole, decls)?;
    leave(&mut whole.work, headers);
    Ok(())
}

// Its declarations, of an instance whose items' facts are known.
fn implemented(
    alloc: Global,
    around: &Around,
    whole: &mut Whole,
    number: u32,
    instance: &Instance,
    facts: &[Fact],
) -> Result<(), Fault>
    ensures { AreTables (application_of around.now.app.now) around.now.tables.now → (h : plain.Whole) → AreBehind around.now h → slice_get (application_of around.now.app.now).instances number ≡ Some (instance_of instance.now) → Does (λ _. tt) result (whole_of whole.new) (parts.implemented (application_of around.now.app.now) h number (instance_of instance.now) (map fact_of facts.now) (whole_of whole.old)) }
{
    let used = instance_uses(alloc, instance)?;
    let told = instance_told(
        alloc,
        around.app,
        around.tables,
        around.headers,
        &used,
        number,
        instance,
        facts,
    )?;
    declared_inside(alloc, &told, around.outer, whole, instance.decls)
}

// An instance whose parameters are in force.
fn behind_given(
    alloc: Global,
    around: &Around,
    whole: &mut Whole,
    number: u32,
    instance: &Instance,
) -> Result<(), Fault>
    ensures { AreTables (application_of around.now.app.now) around.now.tables.now → (h : plain.Whole) → AreBehind around.now h → Has h.work (whole_of whole.old).work → slice_get (application_of around.now.app.now).instances number ≡ Some (instance_of instance.now) → Does (λ _. tt) result (whole_of whole.new) (parts.behind_given (application_of around.now.app.now) h number (instance_of instance.now) (whole_of whole.old)) }
{
    let facts = instance_facts(alloc, around, whole, number, instance)?;
    implemented(alloc, around, whole, number, instance, facts.as_slice())
}

// Nothing of it is declared yet, and its parameters come in force.
fn begun(alloc: Global, met: &Met, whole: &mut Whole, instance: &Instance) -> Result<(), Fault>
    ensures { Does (λ _. tt) result (whole_of whole.new) (parts.begun (met_of met.now) (instance_of instance.now) (whole_of whole.old)) }
{
    whole.nothing_declared(alloc)?;
    enter(&mut whole.work);
    given_names(alloc, &mut whole.work, met, instance.given.as_slice())
}

// An instance, behind the headers.
fn instance_declared(
    alloc: Global,
    around: &Around,
    whole: &mut Whole,
    number: u32,
    instance: &Instance,
) -> Result<(), Fault>
    ensures { AreTables (application_of around.now.app.now) around.now.tables.now → (h : plain.Whole) → AreBehind around.now h → Has h.work (whole_of whole.old).work → slice_get (application_of around.now.app.now).instances number ≡ Some (instance_of instance.now) → Does (λ _. tt) result (whole_of whole.new) (spec.instance_declared (application_of around.now.app.now) h (met_of around.now.met.now) number (instance_of instance.now) (whole_of whole.old)) }
{
    begun(alloc, around.met, whole, instance)?;
    behind_given(alloc, around, whole, number, instance)
}

/// The instances of the application, one behind the other, where the names and tags of headers are the first in force.
pub(crate) fn instances_declared(
    alloc: Global,
    around: &Around,
    whole: &mut Whole,
    instances: &[Instance],
) -> Result<(), Fault>
    ensures { AreTables (application_of around.now.app.now) around.now.tables.now → (h : plain.Whole) → AreBehind around.now h → Has h.work (whole_of whole.old).work → (application_of around.now.app.now).instances ≡ map instance_of instances.now → Does (λ _. tt) result (whole_of whole.new) (spec.instances_declared (application_of around.now.app.now) h (met_of around.now.met.now) 0 (map instance_of instances.now) (whole_of whole.old)) }
{
    let mut number: u32 = 0;
    for instance in instances {
        instance_declared(alloc, around, whole, number, instance)?;
        let Some(next) = number.checked_add(1) else {
            return Err(Fault::NoMemory);
        };
        number = next;
    }
    Ok(())
}
