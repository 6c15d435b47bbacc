//! Items of elements: those that come out of a module, and those that it implements.

ghost use Rattle.std.specs.Prelude.{◌≡◌, ◌++◌, map, IfOk, OnOk};
ghost use Rattle.std.specs.List.{list_any};
ghost use Rattle.std.specs.Option.{option_map};
ghost use Rattle.body_meaning.specs.View.{decl_of};
ghost use Rattle.program_meaning.specs.Heads as heads;
ghost use Rattle.nesc_unwired.specs.Told as spec;
ghost use Rattle.item_targets.specs.View.{element_of, item_of};

use crate::elements::Element;
use elab_uses::implementation_place;
use nesc_tree::{Decl, Sig};
use nm_base::{Name, NoMemory, Pos};
use std::alloc::Global;

/// Whether an item is implemented among declarations, or has a default.
pub(crate) fn has(decls: &[Decl], element: &Name, item: &Name, is_default: bool) -> bool
    ensures { result ≡ spec.has element.now item.now is_default (map decl_of decls.now) }
{
    implementation_place(decls, element, item, is_default).is_some()
}

fn same_flag(x: bool, y: bool) -> bool
    ensures { result ≡ heads.same_flag x y }
{
    if x { y } else { !y }
}

fn comes_out(x: &Element, y: &Sig) -> bool
    ensures { result ≡ spec.comes_out (element_of x.now) (item_of y.now) }
{
    same_flag(x.provides, y.is_event)
}

fn is_called(x: &Element, signal: bool, item: &Name, y: &Sig) -> bool
    ensures { result ≡ spec.is_called (element_of x.now) signal item.now (item_of y.now) }
{
    y.name == *item && same_flag(y.is_event, signal) && comes_out(x, y)
}

#[tactic(auto, using(crate::proofs::ItemLists::items))]
fn is_called_among(items: &[Sig], x: &Element, signal: bool, item: &Name) -> bool
    ensures { result ≡ list_any (spec.is_called (element_of x.now) signal item.now) (map item_of items.now) }
{
    for y in items {
        if is_called(x, signal, item, y) {
            return true;
        }
    }
    false
}

/// Whether an element has an item of this name that comes out and is called, or signalled, as what it is.
pub(crate) fn calls(x: &Element, signal: bool, item: &Name) -> bool
    ensures { result ≡ list_any (spec.is_called (element_of x.now) signal item.now) (element_of x.now).items }
{
    is_called_among(x.items, x, signal, item)
}

fn lacks(decls: &[Decl], x: &Element, y: &Sig) -> bool
    ensures { result ≡ spec.lacks (map decl_of decls.now) (element_of x.now) (item_of y.now) }
{
    !comes_out(x, y) && !has(decls, x.name, &y.name, false)
}

#[tactic(auto, using(crate::proofs::ItemLists::items))]
fn lacks_among(items: &[Sig], decls: &[Decl], x: &Element) -> bool
    ensures { result ≡ list_any (spec.lacks (map decl_of decls.now) (element_of x.now)) (map item_of items.now) }
{
    for y in items {
        if lacks(decls, x, y) {
            return true;
        }
    }
    false
}

fn lacks_any(decls: &[Decl], x: &Element) -> bool
    ensures { result ≡ list_any (spec.lacks (map decl_of decls.now) (element_of x.now)) (element_of x.now).items }
{
    lacks_among(x.items, decls, x)
}

fn add_lacking(found: &mut Vec<Pos>, decls: &[Decl], x: &Element) -> Result<(), NoMemory>
    ensures { OnOk result (found.new.items ≡ found.old.items ++ spec.lacking_in (map decl_of decls.now) (element_of x.now)) }
{
    if lacks_any(decls, x) {
        found.push(x.at)?;
    }
    Ok(())
}

// Adds the elements of which some item is not implemented, in their order.
#[tactic(auto, using(crate::proofs::ItemLists::lists))]
fn add_all_lacking(
    found: &mut Vec<Pos>,
    decls: &[Decl],
    elements: &[Element],
) -> Result<(), NoMemory>
    ensures { OnOk result (found.new.items ≡ found.old.items ++ spec.lacking (map decl_of decls.now) (map element_of elements.now)) }
{
    for x in elements {
        add_lacking(found, decls, x)?;
    }
    Ok(())
}

/// The elements of which some item is not implemented, in their order.
pub(crate) fn all_lacking(
    alloc: Global,
    decls: &[Decl],
    elements: &[Element],
) -> Result<Vec<Pos>, NoMemory>
    ensures { IfOk result (λ v. v.items ≡ spec.lacking (map decl_of decls.now) (map element_of elements.now)) }
{
    let mut found = Vec::new(alloc);
    add_all_lacking(&mut found, decls, elements)?;
    Ok(found)
}

/// The first element with a name, and its number.
#[tactic(auto, using(crate::proofs::ItemLists::finds))]
pub(crate) fn element_named<'a>(
    elements: &'a [Element<'a>],
    name: &Name,
) -> Option<(usize, &'a Element<'a>)>
    ensures { option_map (λ f. (f.0, element_of f.1.now)) result ≡ spec.element_from 0 (map element_of elements.now) name.now }
{
    for (k, x) in elements.iter().enumerate() {
        if *x.name == *name {
            return Some((k, x));
        }
    }
    None
}
