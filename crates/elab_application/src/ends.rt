//! The ends that the wires reach from an element.

ghost use Rattle.std.specs.Prelude.{◌≡◌, ◌++◌, [], Some, IfOk, OnOk, length, map, nat_eq};
ghost use Rattle.std.specs.List.{cons_option};
ghost use Rattle.std.specs.Option.{option_map};
ghost use Rattle.wire_paths.specs.Paths.{end};
ghost use Rattle.wire_paths.specs.Wires.{values_of};
ghost use Rattle.wire_targets.specs.Targets.{AreTargets};
ghost use Rattle.elab_targets.specs.View.{wired_of};
ghost use Rattle.elab_application.specs.Ends.{AreNamed, values_within};
ghost use Rattle.elab_application.specs.Views.{IsFound, IsWithin};

use crate::routes::Routes;
use elab_targets::Wired;
use nm_base::NoMemory;
use std::alloc::Global;
use wire_targets::End;

/// An element of an instance, by numbers.
#[derive(Debug, Clone, Copy)]
pub struct Place {
    pub instance: u32,
    pub element: u32,
}

/// The ends that are reached with a value of the parameter, or with one that no wire names. The paths of an application that is wired have
/// been followed from this end, and none was refused: only memory can be missing.
pub fn reached(
    alloc: Global,
    routes: &Routes,
    place: Place,
    value: Option<u16>,
) -> Result<Vec<End>, NoMemory>
    ensures { IfOk result (λ ends. AreTargets routes.now.net.now.wires.items routes.now.sinks.items (end place.instance place.element value) ends.items) }
{
    let start = End {
        instance: place.instance,
        element: place.element,
        param: value,
    };
    match routes.net.targets(alloc, routes.sinks.as_slice(), start) {
        Ok(ends) => Ok(ends),
        Err(_) => Err(NoMemory),
    }
}

fn are_others(ends: &[End], others: &[End]) -> bool
    ensures { result ≡ nat_eq (length ends.now) (length others.now) }
{
    ends.len() == others.len()
}

// The ends that are reached with a value, where it leads elsewhere.
#[tactic(auto, using(crate::proofs::Named::finds))]
fn found(
    alloc: Global,
    routes: &Routes,
    place: Place,
    value: u16,
    others: &[End],
) -> Result<Option<Wired>, NoMemory>
    ensures { IfOk result (λ w. IsFound routes.now.net.now.wires.items routes.now.sinks.items place.instance place.element value others.now (option_map wired_of w)) }
{
    let ends = reached(alloc, routes, place, Some(value))?;
    if are_others(ends.as_slice(), others) {
        return Ok(None);
    }
    Ok(Some(Wired { value, ends }))
}

// The same of a value up to the greatest.
#[tactic(auto, using(crate::proofs::Named::bounds))]
fn found_within(
    alloc: Global,
    routes: &Routes,
    place: Place,
    greatest: u16,
    value: u16,
    others: &[End],
) -> Result<Option<Wired>, NoMemory>
    ensures { IfOk result (λ w. IsWithin routes.now.net.now.wires.items routes.now.sinks.items place.instance place.element greatest value others.now (option_map wired_of w)) }
{
    if value > greatest {
        return Ok(None);
    }
    let wired = found(alloc, routes, place, value, others)?;
    Ok(wired)
}

fn keep(named: &mut Vec<Wired>, wired: Option<Wired>) -> Result<(), NoMemory>
    ensures { OnOk result (map wired_of named.new.items ≡ map wired_of named.old.items ++ cons_option (option_map wired_of wired) []) }
{
    if let Some(wired) = wired {
        named.push(wired)?;
    }
    Ok(())
}

// The values up to the greatest that lead elsewhere.
fn named_within(
    alloc: Global,
    routes: &Routes,
    place: Place,
    greatest: u16,
    others: &[End],
) -> Result<Vec<Wired>, NoMemory>
    ensures { IfOk result (λ named. AreNamed routes.now.net.now.wires.items routes.now.sinks.items place.instance place.element (values_within (Some greatest) (values_of routes.now.net.now.wires.items)) others.now (map wired_of named.items)) }
{
    let mut named = Vec::new(alloc);
    let mut rest = routes.net.values();
    while let Some((value, more)) = rest.split_first() {
        let wired = found_within(alloc, routes, place, greatest, *value, others)?;
        keep(&mut named, wired)?;
        rest = more;
    }
    Ok(named)
}

/// The values of the parameter that lead elsewhere than those that no wire names, with the ends that are reached with each.
#[tactic(auto, using(crate::proofs::Named::begins))]
pub fn named_of(
    alloc: Global,
    routes: &Routes,
    place: Place,
    greatest: Option<u16>,
    others: &[End],
) -> Result<Vec<Wired>, NoMemory>
    ensures { IfOk result (λ named. AreNamed routes.now.net.now.wires.items routes.now.sinks.items place.instance place.element (values_within greatest (values_of routes.now.net.now.wires.items)) others.now (map wired_of named.items)) }
{
    match greatest {
        Some(greatest) => named_within(alloc, routes, place, greatest, others),
        None => Ok(Vec::new(alloc)),
    }
}
