//! The elements of modules.

ghost use Rattle.std.specs.Prelude.{◌≡◌, IfOk, map, option_copied, slice_get};
ghost use Rattle.program_meaning.specs.Parts.{Interface as InterfaceOf};
ghost use Rattle.wire_pairs.specs.Application.{greatest_in};
ghost use Rattle.elab_targets.specs.View.{element_of, sig_of};
ghost use Rattle.elab_application.specs.Ends as spec;
ghost use Rattle.elab_application.specs.Ends.{IsElement};
ghost use Rattle.elab_application.specs.Files.{parts_of};
ghost use Rattle.elab_application.specs.Instances.{AreElements};

use crate::ends::{Place, named_of, reached};
use crate::ground::Ground;
use elab_targets::Element;
use nesc_tree::{Elem, Interface, Sig};
use nm_base::{IntType, Name, NoMemory};
use std::alloc::Global;
use wire_pairs::ElementFacts;

/// The same number in fewer bits: no list in memory has 2^32 elements or instances.
pub fn short(number: usize) -> Result<u32, NoMemory>
    ensures { IfOk result (λ n. n ≡ number) }
{
    match u32::try_from(number) {
        Ok(number) => Ok(number),
        Err(_) => Err(NoMemory),
    }
}

fn parameter_of(greatest: Option<u16>) -> Option<IntType>
    ensures { result ≡ spec.parameter_of greatest }
{
    let greatest = greatest?;
    if greatest <= 255 {
        Some(IntType::U8)
    } else {
        Some(IntType::U16)
    }
}

fn greatest_at(facts: &[ElementFacts], element: usize) -> Option<u16>
    ensures { result ≡ greatest_in (slice_get facts.now element) }
{
    match facts.get(element) {
        Some(facts) => facts.greatest,
        None => None,
    }
}

fn params_of(interface: Option<&Interface>) -> &[Name]
    ensures { result.now ≡ (parts_of (option_copied interface.entry)).params }
{
    match interface {
        Some(interface) => interface.params.as_slice(),
        None => &[],
    }
}

fn items_of(interface: Option<&Interface>) -> &[Sig]
    ensures { map sig_of result.now ≡ (parts_of (option_copied interface.entry)).items }
{
    match interface {
        Some(interface) => interface.items.as_slice(),
        None => &[],
    }
}

// An element whose parameter has this greatest value.
fn element<'u>(
    alloc: Global,
    ground: &Ground<'u, '_>,
    place: Place,
    greatest: Option<u16>,
    elem: &'u Elem,
) -> Result<Element<'u>, NoMemory>
    ensures { IfOk result (λ x. IsElement ground.now.units.now ground.now.made.now ground.now.pairs.now place.instance place.element greatest elem.now (element_of x)) }
{
    let routes = ground.out(elem.provides);
    let others = reached(alloc, routes, place, None)?;
    let named = named_of(alloc, routes, place, greatest, others.as_slice())?;
    let interface = ground.interfaces.find(&elem.iface);
    Ok(Element {
        provides: elem.provides,
        name: &elem.name,
        params: params_of(interface),
        items: items_of(interface),
        args: elem.args.as_slice(),
        parameter: parameter_of(greatest),
        named,
        others,
        at: elem.pos,
    })
}

/// The elements of an instance, where this is told of them.
pub fn elements_of<'u>(
    alloc: Global,
    ground: &Ground<'u, '_>,
    instance: u32,
    facts: &[ElementFacts],
    elems: &'u [Elem],
) -> Result<Vec<Element<'u>>, NoMemory>
    ensures { IfOk result (λ xs. AreElements ground.now.units.now ground.now.made.now ground.now.pairs.now instance facts.now elems.now (map element_of xs.items)) }
{
    let mut all = Vec::new(alloc);
    let mut number = 0;
    for elem in elems {
        let place = Place {
            instance,
            element: short(number)?,
        };
        all.push(element(alloc, ground, place, greatest_at(facts, number), elem)?)?;
        number += 1;
    }
    Ok(all)
}
