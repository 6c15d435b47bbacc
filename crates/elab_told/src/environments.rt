//! What is told to bodies of headers and of instances.

ghost use Rattle.std.specs.Prelude.{◌≡◌, [], map, IfOk};
ghost use Rattle.elab_meaning.specs.View.{env_of, item_of, unique_of, unique_count_of};
ghost use Rattle.elab_targets.specs.Starts.{AreTables};
ghost use Rattle.elab_targets.specs.View.{application_of, instance_of};
ghost use Rattle.program_meaning.specs.Modules as spec;
ghost use Rattle.elab_told.specs.Environments as own;

use elab_forms::Told;
use elab_meaning::{Env, Item, Unique, UniqueCount};
use elab_targets::{Application, Instance, Tables};
use nm_base::{List, NoMemory, beside};
use std::alloc::Global;

fn copied_uniques(alloc: Global, uniques: &[Unique]) -> Result<Vec<Unique>, NoMemory>
    ensures { IfOk result (λ v. v.items ≡ uniques.now) }
{
    Ok(uniques.to_vec(alloc)?)
}

fn copied_count(one: &UniqueCount) -> Result<UniqueCount, NoMemory>
    ensures { IfOk result (λ c. unique_count_of c ≡ unique_count_of one.now) }
{
    Ok(UniqueCount {
        text: one.text.clone()?,
        count: one.count,
    })
}

fn copied_counts(alloc: Global, counts: &[UniqueCount]) -> Result<Vec<UniqueCount>, NoMemory>
    ensures { IfOk result (λ v. map unique_count_of v.items ≡ map unique_count_of counts.now) }
{
    let mut copies = Vec::new(alloc);
    for one in counts {
        copies.push(copied_count(one)?)?;
    }
    Ok(copies)
}

// What is told with these uses of `unique` and these items.
fn env_with(
    alloc: Global,
    app: &Application,
    tables: &Tables,
    number: u32,
    uniques: &List<Unique>,
    items: Vec<Item>,
) -> Result<Env, NoMemory>
    ensures { AreTables (application_of app.now) tables.now → IfOk result (λ e. env_of e ≡ own.env_with (application_of app.now) number (map unique_of uniques.now) (map item_of items.items)) }
{
    let (items, uniques) = beside(items, copied_uniques(alloc, uniques.as_slice()))?;
    let (items, counts) = beside(items, copied_counts(alloc, app.counts.as_slice()))?;
    Ok(Env {
        instance: number,
        uniques: List::new(uniques),
        counts: List::new(counts),
        items: List::new(items),
        first_dispatch: tables.first_dispatch(),
    })
}

/// What is told to the bodies of headers.
pub(crate) fn header_env(alloc: Global, app: &Application, tables: &Tables) -> Result<Env, NoMemory>
    ensures { AreTables (application_of app.now) tables.now → IfOk result (λ e. env_of e ≡ spec.header_env (application_of app.now)) }
{
    env_with(alloc, app, tables, 0, &app.uniques, Vec::new(alloc))
}

/// What is told to the bodies of an instance with these items.
pub(crate) fn instance_env(
    alloc: Global,
    app: &Application,
    tables: &Tables,
    number: u32,
    instance: &Instance,
    items: Vec<Item>,
) -> Result<Env, NoMemory>
    ensures { AreTables (application_of app.now) tables.now → IfOk result (λ e. env_of e ≡ own.env_with (application_of app.now) number (instance_of instance.now).uniques (map item_of items.items)) }
{
    env_with(alloc, app, tables, number, &instance.uniques, items)
}

/// What is known to the elements' items of an instance, before they are known: no items, no values.
pub fn head_told(
    alloc: Global,
    app: &Application,
    tables: &Tables,
    number: u32,
    instance: &Instance,
) -> Result<Told, NoMemory>
    ensures env { AreTables (application_of app.now) tables.now → IfOk result (λ t. env_of t.env ≡ spec.head_env (application_of app.now) number (instance_of instance.now)) }
    ensures values { IfOk result (λ t. t.values ≡ []) }
{
    let env = instance_env(alloc, app, tables, number, instance, Vec::new(alloc))?;
    Ok(Told {
        env,
        values: List::new(Vec::new(alloc)),
    })
}
