//! What the names of functions and tasks mean.

ghost use Rattle.std.specs.Prelude.{◌≡◌, IfOk, Some};
ghost use Rattle.elab_facts.specs.View.{form_of};
ghost use Rattle.elab_meaning.specs.View.{meaning_of};
ghost use Rattle.elab_rules.specs.Tells.{Tells};
ghost use Rattle.program_meaning.specs.Numbers as numbers;
ghost use Rattle.program_meaning.specs.Walk as spec;

use crate::told::ModuleTold;
use elab_facts::Form;
use elab_meaning::Meaning;
use elab_names::all_copied;
use elab_values::copied;
use nesc_core::CoreType;
use nm_base::{List, Name, NoMemory, beside};
use std::alloc::Global;

// A number that is no u32 finds no memory.
fn numbered(first: u32, place: Option<u32>) -> Result<Option<u32>, NoMemory>
    ensures { IfOk result (λ n. n ≡ numbers.numbered first place) }
{
    match place {
        None => Ok(None),
        Some(place) => match first.checked_add(place) {
            None => Err(NoMemory),
            Some(number) => Ok(Some(number)),
        },
    }
}

/// The number of a function's body, if it has one.
pub fn function_number(told: &ModuleTold, name: &Name) -> Result<Option<u32>, NoMemory>
    ensures { (t : spec.Told) → Tells told.now t → IfOk result (λ n. n ≡ numbers.numbered t.first_body (numbers.place_of (numbers.is_function name.now) t.decls)) }
{
    numbered(told.first_body, told.places.function(name))
}

fn task_number(told: &ModuleTold, name: &Name) -> Result<Option<u32>, NoMemory>
    ensures { (t : spec.Told) → Tells told.now t → IfOk result (λ n. n ≡ numbers.numbered t.first_task (numbers.task_place name.now t.decls)) }
{
    numbered(told.first_task, told.places.task(name))
}

// A function that has no body and is never called: its name hides others, and nothing can be done with it.
fn no_function() -> Meaning
    ensures { meaning_of result ≡ spec.no_function }
{
    Meaning::Type(CoreType::Void, false)
}

fn function(alloc: Global, f: &Form, body: u32) -> Result<Meaning, NoMemory>
    ensures { IfOk result (λ m. meaning_of m ≡ spec.function_of (form_of f.now) (Some body)) }
{
    let params = all_copied(alloc, f.params.as_slice())?;
    let (params, result) = beside(params, copied(alloc, &f.result))?;
    Ok(Meaning::Function(body, List::new(params), result))
}

/// What the name of a function means, by its body's number.
pub fn function_of(alloc: Global, f: &Form, body: Option<u32>) -> Result<Meaning, NoMemory>
    ensures { IfOk result (λ m. meaning_of m ≡ spec.function_of (form_of f.now) body) }
{
    match body {
        None => Ok(no_function()),
        Some(body) => function(alloc, f, body),
    }
}

/// What the name of a task means, by its place among the tasks.
pub fn task_of(place: Option<u32>) -> Meaning
    ensures { meaning_of result ≡ spec.task_of place }
{
    match place {
        None => no_function(),
        Some(place) => Meaning::Task(place),
    }
}

/// What the name of a function means. A number that is no u32 finds no memory.
pub fn function_meaning(
    alloc: Global,
    told: &ModuleTold,
    name: &Name,
    f: &Form,
) -> Result<Meaning, NoMemory>
    ensures { (t : spec.Told) → Tells told.now t → IfOk result (λ m. meaning_of m ≡ spec.function_of (form_of f.now) (numbers.numbered t.first_body (numbers.place_of (numbers.is_function name.now) t.decls))) }
{
    let number = function_number(told, name)?;
    function_of(alloc, f, number)
}

/// What the name of a task means. A number that is no u32 finds no memory.
pub fn task_meaning(told: &ModuleTold, name: &Name) -> Result<Meaning, NoMemory>
    ensures { (t : spec.Told) → Tells told.now t → IfOk result (λ m. meaning_of m ≡ spec.task_of (numbers.numbered t.first_task (numbers.task_place name.now t.decls))) }
{
    let number = task_number(told, name)?;
    Ok(task_of(number))
}
