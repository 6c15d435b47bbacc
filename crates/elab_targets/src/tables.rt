//! Tables of all instances of an application, and where the numbers of each begin.

ghost use Rattle.std.specs.Prelude.{◌≡◌, [], ◌∷◌, ◌++◌, List, flat_map, map, length, Ok, IfOk, OnOk, option_copied, slice_get};
ghost use Rattle.body_meaning.specs.Tree as tree;
ghost use Rattle.body_meaning.specs.View.{decl_of};
ghost use Rattle.program_meaning.specs.Numbers as spec;
ghost use Rattle.program_meaning.specs.Parts.{Application as App, Instance as Inst};
ghost use Rattle.elab_targets.specs.Places.{ArePlaces};
ghost use Rattle.elab_targets.specs.Starts.{AllPlaces, AreOf, AreTables, bodies_of, starts, tasks_of};
ghost use Rattle.elab_targets.specs.View.{application_of, instance_of};

use crate::application::{Application, Instance};
use crate::numbers::plus;
use crate::places::Places;
use nesc_tree::Decl;
use nm_base::{Name, NoMemory, beside};
use std::alloc::Global;

/// The places of the headers' definitions and of those of each instance, and the first body and the first task of each; behind them stand
/// the first dispatch body and the number of the tasks.
#[derive(Drop)]
pub struct Tables {
    headers: Places,
    instances: Vec<Places>,
    first_bodies: Vec<u32>,
    first_tasks: Vec<u32>,
}

fn add_all(places: &mut Places, headers: &[&[Decl]]) -> Result<(), NoMemory>
    ensures { OnOk result ((ds : List tree.Decl) → ArePlaces ds places.old → ArePlaces (ds ++ flat_map (λ h. map decl_of h.now) headers.now) places.new) }
{
    for decls in headers {
        places.add(decls)?;
    }
    Ok(())
}

// What was made, where the work on it had memory; its drop is in one place, here.
fn behind<T: Drop>(made: T, done: Result<(), NoMemory>) -> Result<T, NoMemory>
    ensures { IfOk result (λ x. (x ≡ made) × (done ≡ Ok tt)) }
{
    match done {
        Ok(()) => Ok(made),
        Err(refused) => Err(refused),
    }
}

fn header_places(alloc: Global, headers: &[&[Decl]]) -> Result<Places, NoMemory>
    ensures { IfOk result (λ t. ArePlaces (flat_map (λ h. map decl_of h.now) headers.now) t) }
{
    let mut places = Places::new(alloc);
    let added = add_all(&mut places, headers);
    behind(places, added)
}

fn places_of(alloc: Global, decls: &[Decl]) -> Result<Places, NoMemory>
    ensures { IfOk result (λ t. ArePlaces (map decl_of decls.now) t) }
{
    let mut places = Places::new(alloc);
    let added = places.add(decls);
    behind(places, added)
}

fn push_places(alloc: Global, all: &mut Vec<Places>, instance: &Instance) -> Result<(), NoMemory>
    ensures { OnOk result ((is : List Inst) → AllPlaces is all.old.items → AllPlaces (is ++ instance_of instance.now ∷ []) all.new.items) }
{
    all.push(places_of(alloc, instance.decls)?)?;
    Ok(())
}

fn all_places(alloc: Global, instances: &[Instance]) -> Result<Vec<Places>, NoMemory>
    ensures { IfOk result (λ ts. AllPlaces (map instance_of instances.now) ts.items) }
{
    let mut all = Vec::new(alloc);
    for instance in instances {
        push_places(alloc, &mut all, instance)?;
    }
    Ok(all)
}

fn body_starts(alloc: Global, first: u32, instances: &[Places]) -> Result<Vec<u32>, NoMemory>
    ensures { IfOk result (λ v. v.items ≡ starts bodies_of first instances.now) }
{
    let mut found = Vec::new(alloc);
    let mut next = first;
    for places in instances {
        found.push(next)?;
        next = plus(next, places.bodies)?;
    }
    found.push(next)?;
    Ok(found)
}

fn task_starts(alloc: Global, instances: &[Places]) -> Result<Vec<u32>, NoMemory>
    ensures { IfOk result (λ v. v.items ≡ starts tasks_of 0 instances.now) }
{
    let mut found = Vec::new(alloc);
    let mut next = 0;
    for places in instances {
        found.push(next)?;
        next = plus(next, places.tasks)?;
    }
    found.push(next)?;
    Ok(found)
}

fn both_places(alloc: Global, app: &Application) -> Result<(Places, Vec<Places>), NoMemory>
    ensures headers { IfOk result (λ p. ArePlaces (application_of app.now).headers p.0) }
    ensures instances { IfOk result (λ p. AllPlaces (application_of app.now).instances p.1.items) }
{
    let headers = header_places(alloc, app.headers.as_slice())?;
    beside(headers, all_places(alloc, app.instances.as_slice()))
}

fn both_starts(
    alloc: Global,
    headers: &Places,
    instances: &[Places],
) -> Result<(Vec<u32>, Vec<u32>), NoMemory>
    ensures bodies { IfOk result (λ p. p.0.items ≡ starts bodies_of (bodies_of headers.now) instances.now) }
    ensures tasks { IfOk result (λ p. p.1.items ≡ starts tasks_of 0 instances.now) }
{
    let bodies = body_starts(alloc, headers.bodies, instances)?;
    let tasks = task_starts(alloc, instances)?;
    Ok((bodies, tasks))
}

/// The tables of an application, in time linear in its declarations.
pub fn tables_of(alloc: Global, app: &Application) -> Result<Tables, NoMemory>
    ensures { IfOk result (λ t. AreTables (application_of app.now) t) }
{
    let (headers, instances) = both_places(alloc, app)?;
    let found = both_starts(alloc, &headers, instances.as_slice());
    let ((headers, instances), (first_bodies, first_tasks)) = beside((headers, instances), found)?;
    Ok(Tables {
        headers,
        instances,
        first_bodies,
        first_tasks,
    })
}

fn number_at(numbers: &[u32], at: usize) -> u32
    ensures { result ≡ spec.or_none (slice_get numbers.now at) }
{
    match numbers.get(at) {
        Some(number) => *number,
        None => 0,
    }
}

fn places_at(places: &[Places], at: usize) -> Option<&Places>
    ensures { option_copied result ≡ slice_get places.now at }
{
    places.get(at)
}

impl Tables {
    /// The number of the first body of an instance.
    pub fn first_body(&self, instance: u32) -> u32
        ensures { (app : App) → AreTables app self.now → result ≡ spec.first_body app instance }
    {
        number_at(self.first_bodies.as_slice(), instance as usize)
    }

    /// The number of the first task of an instance.
    pub fn first_task(&self, instance: u32) -> u32
        ensures { (app : App) → AreTables app self.now → result ≡ spec.first_task app instance }
    {
        number_at(self.first_tasks.as_slice(), instance as usize)
    }

    /// The number of the first dispatch body, behind all other bodies.
    pub fn first_dispatch(&self) -> u32
        ensures { (app : App) → AreTables app self.now → result ≡ spec.first_dispatch app }
    {
        number_at(
            self.first_bodies.as_slice(),
            self.instances.as_slice().len(),
        )
    }

    /// The places of the headers' definitions.
    pub fn headers(&self) -> &Places
        ensures { (app : App) → AreTables app self.now → ArePlaces app.headers result.now }
    {
        &self.headers
    }

    /// The places of the definitions of an instance.
    pub fn places(&self, instance: u32) -> Option<&Places>
        ensures { (app : App) → AreTables app self.now → AreOf (slice_get app.instances instance) (option_copied result) }
    {
        places_at(self.instances.as_slice(), instance as usize)
    }

    /// The number of the body that implements an item of an element of an instance, or its default.
    pub fn implementation(
        &self,
        instance: u32,
        element: &Name,
        item: &Name,
        is_default: bool,
    ) -> Result<Option<u32>, NoMemory>
        ensures { (app : App) → AreTables app self.now → IfOk result (λ o. o ≡ spec.implementation app instance element.now item.now is_default) }
    {
        let Some(places) = self.places(instance) else {
            return Ok(None);
        };
        let Some(place) = places.implementation(element, item, is_default) else {
            return Ok(None);
        };
        Ok(Some(plus(self.first_body(instance), place)?))
    }
}
