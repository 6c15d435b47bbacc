//! The bodies that the wires reach from an item of an element.

ghost use Rattle.std.specs.Prelude.{◌≡◌, ℕ, ◌++◌, map, option_map, option_and_then, slice_get, IfOk, OnOk};
ghost use Rattle.program_meaning.specs.Items as spec;
ghost use Rattle.program_meaning.specs.Parts.{Application as App, Elem};
ghost use Rattle.elab_facts.specs.View.{first_of as first_view, reached_of, target_of as target_view};
ghost use Rattle.elab_targets.specs.Starts.{AreTables};
ghost use Rattle.elab_targets.specs.View.{application_of, element_of, wired_of};

use crate::application::{Application, Element, Wired};
use crate::tables::Tables;
use elab_facts::{First, Reached, Target};
use nm_base::{IntType, List, Name, NoMemory, wrap};
use std::alloc::Global;
use wire_targets::End;

fn first_of(parameter: Option<IntType>, value: Option<u16>) -> First
    ensures { first_view result ≡ spec.first_of parameter value }
{
    match parameter {
        None => First::Nothing,
        Some(t) => match value {
            Some(n) => First::Given((t, wrap(t, i64::from(n)))),
            None => First::PassedOn(t),
        },
    }
}

fn target(body: Option<u32>, first: First) -> Option<Target>
    ensures { option_map target_view result ≡ option_map (spec.target (first_view first)) body }
{
    let body = body?;
    Some(Target { body, first })
}

fn element_at<'a>(app: &'a Application, end: &End) -> Option<&'a Element<'a>>
    ensures { option_map (λ x. element_of x.now) result ≡ option_and_then (λ i. slice_get i.elems end.now.element) (slice_get (application_of app.now).instances end.now.instance) }
{
    let instance = end.instance as usize;
    if instance >= app.instances.len() {
        return None;
    }
    let elements = app.instances[instance].elems.as_slice();
    let element = end.element as usize;
    if element >= elements.len() {
        return None;
    }
    Some(&elements[element])
}

fn target_of(
    app: &Application,
    tables: &Tables,
    item: &Name,
    end: &End,
) -> Result<Option<Target>, NoMemory>
    ensures { AreTables (application_of app.now) tables.now → IfOk result (λ t. option_map target_view t ≡ spec.target_of (application_of app.now) item.now end.now) }
{
    let Some(element) = element_at(app, end) else {
        return Ok(None);
    };
    let body = tables.implementation(end.instance, element.name, item, false)?;
    Ok(target(body, first_of(element.parameter, end.param)))
}

fn targets_of(
    alloc: Global,
    app: &Application,
    tables: &Tables,
    item: &Name,
    ends: &[End],
) -> Result<Vec<Target>, NoMemory>
    ensures { AreTables (application_of app.now) tables.now → IfOk result (λ ts. map target_view ts.items ≡ spec.targets_of (application_of app.now) item.now ends.now) }
{
    let mut targets = Vec::new(alloc);
    for end in ends {
        if let Some(target) = target_of(app, tables, item, end)? {
            targets.push(target)?;
        }
    }
    Ok(targets)
}

// The module's own implementation for where nothing is reached.
fn default_of(
    tables: &Tables,
    instance: u32,
    element: &Element,
    item: &Name,
) -> Result<Option<Target>, NoMemory>
    ensures { (app : App) → AreTables app tables.now → IfOk result (λ t. spec.some_target app instance (element_of element.now) (option_map target_view t) ≡ spec.default_of app instance (element_of element.now) item.now) }
{
    let body = tables.implementation(instance, element.name, item, true)?;
    Ok(target(body, first_of(element.parameter, None)))
}

fn or_default(
    tables: &Tables,
    instance: u32,
    element: &Element,
    item: &Name,
    targets: &mut Vec<Target>,
) -> Result<(), NoMemory>
    ensures { (app : App) → AreTables app tables.now → OnOk result (map target_view targets.new.items ≡ spec.or_default app instance (element_of element.now) item.now (map target_view targets.old.items)) }
{
    if !targets.as_slice().is_empty() {
        return Ok(());
    }
    if let Some(target) = default_of(tables, instance, element, item)? {
        targets.push(target)?;
    }
    Ok(())
}

fn reached(
    alloc: Global,
    app: &Application,
    tables: &Tables,
    instance: u32,
    element: &Element,
    item: &Name,
    ends: &[End],
) -> Result<List<Target>, NoMemory>
    ensures { AreTables (application_of app.now) tables.now → IfOk result (λ ts. map target_view ts ≡ spec.or_default (application_of app.now) instance (element_of element.now) item.now (spec.targets_of (application_of app.now) item.now ends.now)) }
{
    let mut targets = targets_of(alloc, app, tables, item, ends)?;
    or_default(tables, instance, element, item, &mut targets)?;
    Ok(List::new(targets))
}

fn named_case(
    alloc: Global,
    app: &Application,
    tables: &Tables,
    instance: u32,
    element: &Element,
    item: &Name,
    wired: &Wired,
) -> Result<Reached, NoMemory>
    ensures { AreTables (application_of app.now) tables.now → IfOk result (λ c. reached_of c ≡ spec.named_case (application_of app.now) instance (element_of element.now) item.now (wired_of wired.now)) }
{
    let targets = reached(
        alloc,
        app,
        tables,
        instance,
        element,
        item,
        wired.ends.as_slice(),
    )?;
    Ok(Reached {
        value: Some(wired.value),
        targets,
    })
}

fn push_named(
    alloc: Global,
    app: &Application,
    tables: &Tables,
    instance: u32,
    element: &Element,
    item: &Name,
    cases: &mut Vec<Reached>,
) -> Result<(), NoMemory>
    ensures { AreTables (application_of app.now) tables.now → OnOk result (map reached_of cases.new.items ≡ map reached_of cases.old.items ++ map (spec.named_case (application_of app.now) instance (element_of element.now) item.now) (element_of element.now).named) }
{
    for wired in element.named.as_slice() {
        cases.push(named_case(alloc, app, tables, instance, element, item, wired)?)?;
    }
    Ok(())
}

fn push_others(
    alloc: Global,
    app: &Application,
    tables: &Tables,
    instance: u32,
    element: &Element,
    item: &Name,
    cases: &mut Vec<Reached>,
) -> Result<(), NoMemory>
    ensures { AreTables (application_of app.now) tables.now → OnOk result (map reached_of cases.new.items ≡ map reached_of cases.old.items ++ spec.other_case (application_of app.now) instance (element_of element.now) (spec.or_default (application_of app.now) instance (element_of element.now) item.now (spec.targets_of (application_of app.now) item.now (element_of element.now).others))) }
{
    let targets = reached(
        alloc,
        app,
        tables,
        instance,
        element,
        item,
        element.others.as_slice(),
    )?;
    if targets.as_slice().is_empty() {
        return Ok(());
    }
    cases.push(Reached {
        value: None,
        targets,
    })?;
    Ok(())
}

/// The targets of an item of an element of an instance: for the values that wires name, and then for all others (nesC 1.3 Reference, 4 to 6
/// and 9).
pub fn cases_of(
    alloc: Global,
    app: &Application,
    tables: &Tables,
    instance: u32,
    element: &Element,
    item: &Name,
) -> Result<List<Reached>, NoMemory>
    ensures { AreTables (application_of app.now) tables.now → IfOk result (λ cs. map reached_of cs ≡ spec.cases_of (application_of app.now) instance (element_of element.now) item.now) }
{
    let mut cases = Vec::new(alloc);
    push_named(alloc, app, tables, instance, element, item, &mut cases)?;
    push_others(alloc, app, tables, instance, element, item, &mut cases)?;
    Ok(List::new(cases))
}

fn only_one(targets: &[Target]) -> Option<Target>
    ensures { (app : App) (instance : ℕ) (x : Elem) → option_map target_view result ≡ spec.only_one app instance x (map target_view targets.now) }
{
    match targets {
        [one] => Some(*one),
        _ => None,
    }
}

fn plain_target(
    alloc: Global,
    app: &Application,
    tables: &Tables,
    item: &Name,
    ends: &[End],
) -> Result<Option<Target>, NoMemory>
    ensures { (instance : ℕ) (x : Elem) → AreTables (application_of app.now) tables.now → IfOk result (λ t. option_map target_view t ≡ spec.only_one (application_of app.now) instance x (spec.targets_of (application_of app.now) item.now ends.now)) }
{
    let targets = targets_of(alloc, app, tables, item, ends)?;
    Ok(only_one(targets.as_slice()))
}

/// The one target of a call without a parameter.
pub fn one_target(
    alloc: Global,
    app: &Application,
    tables: &Tables,
    instance: u32,
    element: &Element,
    item: &Name,
) -> Result<Option<Target>, NoMemory>
    ensures { AreTables (application_of app.now) tables.now → IfOk result (λ t. option_map target_view t ≡ spec.one_target (application_of app.now) instance (element_of element.now) (element_of element.now).parameter item.now) }
{
    match element.parameter {
        Some(_) => Ok(None),
        None => plain_target(alloc, app, tables, item, element.others.as_slice()),
    }
}
