//! What is told of the elements of an instance.

ghost use Rattle.std.specs.Prelude.{◌≡◌, IfOk, map};
ghost use Rattle.elab_targets.specs.View.{element_of as given_of};
ghost use Rattle.item_targets.specs.View.{element_of as told_of};
ghost use Rattle.unwired_items.specs.Modules as spec;

use elab_targets::Element as Given;
use item_targets::Element;
use nm_base::NoMemory;
use std::alloc::Global;

fn element<'u>(x: &Given<'u>) -> Element<'u>
    ensures { told_of result ≡ spec.element_of (given_of x.now) }
{
    Element {
        provides: x.provides,
        name: x.name,
        parameter: x.parameter,
        items: x.items,
        at: x.at,
    }
}

/// What is told of these elements, in their order; nothing is copied but references.
pub fn elements_of<'u>(alloc: Global, elems: &[Given<'u>]) -> Result<Vec<Element<'u>>, NoMemory>
    ensures { IfOk result (λ v. map told_of v.items ≡ map spec.element_of (map given_of elems.now)) }
{
    let mut all = Vec::new(alloc);
    for x in elems {
        all.push(element(x))?;
    }
    Ok(all)
}
