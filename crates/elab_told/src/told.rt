//! What is told to the declarations of headers and of instances.

ghost use Rattle.std.specs.Prelude.{◌≡◌, Some, bytes_eq, codes, map, slice_get, IfOk};
ghost use Rattle.elab_facts.specs.View.{declared_of, fact_of};
ghost use Rattle.elab_meaning.specs.View.{env_of};
ghost use Rattle.elab_rules.specs.Tells.{Tells};
ghost use Rattle.elab_targets.specs.Places.{ArePlaces, AreUsed};
ghost use Rattle.elab_targets.specs.Starts.{AreTables};
ghost use Rattle.elab_targets.specs.View.{application_of, instance_of};
ghost use Rattle.program_meaning.specs.Making.{Whole};
ghost use Rattle.program_meaning.specs.Modules as spec;
ghost use Rattle.program_meaning.specs.Parts.{Application as App, Instance as Inst};
ghost use Rattle.program_meaning.specs.Uses as uses;

use crate::environments::{header_env, instance_env};
use crate::items::{items_of, values_of};
use crate::printed::instance_text;
use elab_facts::{Declared, Fact};
use elab_forms::Told;
use elab_rules::ModuleTold;
use elab_targets::{Application, Instance, Places, Tables, Used};
use nm_base::{List, Name, NoMemory, beside};
use std::alloc::Global;

/// What is told to the declarations of headers.
pub fn header_told<'a>(
    alloc: Global,
    app: &'a Application<'a>,
    tables: &'a Tables,
    used: &'a Used,
) -> Result<ModuleTold<'a>, NoMemory>
    ensures { AreTables (application_of app.now) tables.now → AreUsed (spec.header_uses (application_of app.now)) used.now → IfOk result (λ m. Tells m (spec.header_told (application_of app.now))) }
{
    let env = header_env(alloc, app, tables)?;
    Ok(ModuleTold {
        told: Told {
            env,
            values: List::new(Vec::new(alloc)),
        },
        facts: &[],
        places: tables.headers(),
        used,
        first_body: 0,
        first_task: 0,
        instance: None,
        is_main: false,
        headers: &[],
        header_places: tables.headers(),
    })
}

// Bodies are told the items of these facts and the values of their one targets.
fn told_of(
    alloc: Global,
    app: &Application,
    tables: &Tables,
    number: u32,
    instance: &Instance,
    facts: &[Fact],
) -> Result<Told, NoMemory>
    ensures env { AreTables (application_of app.now) tables.now → (h : Whole) → IfOk result (λ t. env_of t.env ≡ (spec.instance_told (application_of app.now) h number (instance_of instance.now) (map fact_of facts.now)).env) }
    ensures values { (h : Whole) → IfOk result (λ t. t.values ≡ (spec.instance_told (application_of app.now) h number (instance_of instance.now) (map fact_of facts.now)).values) }
{
    let items = items_of(alloc, facts)?;
    let env = instance_env(alloc, app, tables, number, instance, items)?;
    let (env, values) = beside(env, values_of(alloc, facts))?;
    Ok(Told {
        env,
        values: List::new(values),
    })
}

// The places of an instance's definitions; a number of no instance finds none.
fn places_of(tables: &Tables, number: u32) -> Result<&Places, NoMemory>
    ensures { (app : App) (i : Inst) → AreTables app tables.now → slice_get app.instances number ≡ Some i → IfOk result (λ p. ArePlaces i.decls p.now) }
{
    match tables.places(number) {
        Some(places) => Ok(places),
        None => Err(NoMemory),
    }
}

fn is_main(component: &Name) -> bool
    ensures { result ≡ bytes_eq component.now (codes "MainC") }
{
    component.as_bytes() == b"MainC".as_slice()
}

/// What is told to the declarations of an instance, whose items' facts are known. Errors: NoMemory, also where the application has no instance
/// of this number.
pub fn instance_told<'a>(
    alloc: Global,
    app: &'a Application<'a>,
    tables: &'a Tables,
    headers: &'a [Declared],
    used: &'a Used,
    number: u32,
    instance: &'a Instance<'a>,
    facts: &'a [Fact],
) -> Result<ModuleTold<'a>, NoMemory>
    ensures { AreTables (application_of app.now) tables.now → AreUsed (uses.in_decls (instance_of instance.now).decls) used.now → (h : Whole) → h.declared ≡ map declared_of headers.now → slice_get (application_of app.now).instances number ≡ Some (instance_of instance.now) → IfOk result (λ m. Tells m (spec.instance_told (application_of app.now) h number (instance_of instance.now) (map fact_of facts.now))) }
{
    let places = places_of(tables, number)?;
    let told = told_of(alloc, app, tables, number, instance, facts)?;
    let (told, name) = beside(told, instance_text(alloc, instance))?;
    Ok(ModuleTold {
        told,
        facts,
        places,
        used,
        first_body: tables.first_body(number),
        first_task: tables.first_task(number),
        instance: Some(name),
        is_main: is_main(instance.component),
        headers,
        header_places: tables.headers(),
    })
}
