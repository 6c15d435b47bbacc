//! The items of an instance's elements as its bodies know them.

ghost use Rattle.std.specs.Prelude.{◌≡◌, map, IfOk};
ghost use Rattle.std.specs.Option.{option_map};
ghost use Rattle.nesc_core.specs.View.{type_of};
ghost use Rattle.elab_facts.specs.View.{fact_of, first_of, target_of};
ghost use Rattle.elab_meaning.specs.View.{item_of as item_view};
ghost use Rattle.program_meaning.specs.Items as spec;
ghost use Rattle.program_meaning.specs.Items.{Fact as FactOf};

use elab_facts::{Fact, First, Form, Target};
use elab_meaning::Item;
use elab_names::all_copied;
use elab_values::copied;
use nesc_core::CoreType;
use nesc_types::Constant;
use nm_base::{List, Name, NoMemory, beside};
use std::alloc::Global;

// The one target of a call that comes out.
fn out_target(fact: &Fact) -> Option<Target>
    ensures { option_map target_of result ≡ spec.out_target (fact_of fact.now) }
{
    if fact.comes_out { fact.one } else { None }
}

fn body_of(target: Option<Target>) -> Option<u32>
    ensures { result ≡ spec.body_of (option_map target_of target) }
{
    match target {
        None => None,
        Some(target) => Some(target.body),
    }
}

fn value_of(first: First) -> Option<Constant>
    ensures { result ≡ spec.value_of (first_of first) }
{
    match first {
        First::Nothing => None,
        First::Given(value) => Some(value),
        First::PassedOn(_) => None,
    }
}

fn value_given(target: Option<Target>) -> Option<Constant>
    ensures { result ≡ spec.value_given (option_map target_of target) }
{
    match target {
        None => None,
        Some(target) => value_of(target.first),
    }
}

fn names_of(fact: &Fact) -> Result<(Name, Name), NoMemory>
    ensures { IfOk result (λ n. (n.0 ≡ fact.now.element) × (n.1 ≡ fact.now.name)) }
{
    let element = fact.element.clone()?;
    Ok((element, fact.name.clone()?))
}

fn types_of(alloc: Global, form: &Form) -> Result<(List<CoreType>, CoreType), NoMemory>
    ensures { IfOk result (λ t. (map type_of t.0 ≡ map type_of form.now.params) × (type_of t.1 ≡ type_of form.now.result)) }
{
    let params = all_copied(alloc, form.params.as_slice())?;
    let (params, result) = beside(params, copied(alloc, &form.result))?;
    Ok((List::new(params), result))
}

fn item_of(alloc: Global, fact: &Fact) -> Result<Item, NoMemory>
    ensures { IfOk result (λ i. item_view i ≡ spec.item_of (fact_of fact.now)) }
{
    let names = names_of(fact)?;
    let ((element, name), (params, result)) = beside(names, types_of(alloc, &fact.form))?;
    Ok(Item {
        element,
        name,
        is_signal: fact.is_event,
        parameter: fact.form.bracket,
        params,
        result,
        body: body_of(out_target(fact)),
    })
}

/// The items of these facts, in their order.
pub(crate) fn items_of(alloc: Global, facts: &[Fact]) -> Result<Vec<Item>, NoMemory>
    ensures { IfOk result (λ v. map item_view v.items ≡ map spec.item_of (map fact_of facts.now)) }
{
    let mut items = Vec::new(alloc);
    for fact in facts {
        items.push(item_of(alloc, fact)?)?;
    }
    Ok(items)
}

/// For each item the value that the parameter of its one target gets.
pub(crate) fn values_of(alloc: Global, facts: &[Fact]) -> Result<Vec<Option<Constant>>, NoMemory>
    ensures { IfOk result (λ v. v.items ≡ map (λ (x : FactOf). spec.value_given (spec.out_target x)) (map fact_of facts.now)) }
{
    let mut values = Vec::new(alloc);
    for fact in facts {
        values.push(value_given(out_target(fact)))?;
    }
    Ok(values)
}
