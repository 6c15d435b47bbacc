//! Names in print.

ghost use Rattle.std.specs.Prelude.{◌≡◌, IfOk, OnOk};
ghost use Rattle.elab_facts.specs.View.{fact_of};
ghost use Rattle.elab_rules.specs.Tells.{Tells};
ghost use Rattle.program_meaning.specs.Items as items;
ghost use Rattle.program_meaning.specs.Walk as spec;

use crate::named::or_nothing;
use crate::told::ModuleTold;
use elab_facts::Fact;
use nm_base::{Name, NoMemory};
use std::alloc::Global;

// The text, and behind a dot the next one.
fn push_dotted(text: &mut Vec<u8>, next: &[u8]) -> Result<(), NoMemory>
    ensures { OnOk result (text.new.items ≡ items.dotted text.old.items next.now) }
{
    text.extend_from_slice(b".")?;
    text.extend_from_slice(next)?;
    Ok(())
}

fn dotted(alloc: Global, first: &[u8], second: &[u8]) -> Result<Name, NoMemory>
    ensures { IfOk result (λ n. n ≡ items.dotted first.now second.now) }
{
    let mut text = first.to_vec(alloc)?;
    push_dotted(&mut text, second)?;
    Name::new(alloc, text.as_slice())
}

/// The name of a function, or that of an item behind that of its element.
pub(crate) fn with_item(alloc: Global, name: &Name, item: &Option<Name>) -> Result<Name, NoMemory>
    ensures { IfOk result (λ n. n ≡ spec.with_item name.now item.now) }
{
    match item {
        None => Ok(name.clone()?),
        Some(item) => dotted(alloc, name.as_bytes(), item.as_bytes()),
    }
}

fn of_instance(alloc: Global, instance: &Option<Name>, name: &Name) -> Result<Name, NoMemory>
    ensures { IfOk result (λ n. n ≡ spec.of_instance instance.now name.now) }
{
    match instance {
        None => Ok(name.clone()?),
        Some(instance) => dotted(alloc, instance.as_bytes(), name.as_bytes()),
    }
}

/// The name in print of what is declared, behind that of the instance.
pub fn instance_name(alloc: Global, told: &ModuleTold, name: &Name) -> Result<Name, NoMemory>
    ensures { (t : spec.Told) → Tells told.now t → IfOk result (λ n. n ≡ spec.of_instance t.instance name.now) }
{
    of_instance(alloc, &told.instance, name)
}

fn dispatch_text(alloc: Global, instance: &[u8], fact: &Fact) -> Result<Name, NoMemory>
    ensures { IfOk result (λ n. n ≡ items.dispatch_text instance.now (fact_of fact.now)) }
{
    let mut text = Vec::new(alloc);
    text.extend_from_slice(b"wire ")?;
    text.extend_from_slice(instance)?;
    push_dotted(&mut text, fact.element.as_bytes())?;
    push_dotted(&mut text, fact.name.as_bytes())?;
    Name::new(alloc, text.as_slice())
}

/// The name in print of the dispatch function of an item.
pub fn dispatch_name(alloc: Global, told: &ModuleTold, fact: &Fact) -> Result<Name, NoMemory>
    ensures { (t : spec.Told) → Tells told.now t → IfOk result (λ n. n ≡ items.dispatch_text (spec.or_nothing t.instance) (fact_of fact.now)) }
{
    dispatch_text(alloc, or_nothing(&told.instance), fact)
}
