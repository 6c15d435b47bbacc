//! Tables of elements and of instances by name.

ghost use Rattle.std.specs.Prelude.{◌≡◌, ℕ, List as ListOf, Some, IfOk, OnOk, if◌then◌else◌, map, option_copied, slice_get};
ghost use Rattle.wire_names.specs.Places.{place_of};
ghost use Rattle.wire_units.specs.Units as spec;
ghost use Rattle.wire_units.specs.Units.{is_named};
ghost use Rattle.wire_pairs.specs.Application.{elems_in, element_in, name_in, single, places_in};

use nesc_tree::{Elem, Part};
use nm_base::{Name, NoMemory};
use std::alloc::Global;
use wire_instances::Made;
use wire_names::Places;
use wire_units::Loaded;

/// The elements of the component that a file holds.
pub fn elems_of(part: &Part) -> &[Elem]
    ensures { result.now ≡ elems_in (spec.head_of part.now) }
{
    match part {
        Part::Module(module) => module.head.elems.as_slice(),
        Part::Config(config) => config.head.elems.as_slice(),
        Part::Interface(_) | Part::Header => &[],
    }
}

fn name_of(part: &Part) -> Option<&Name>
    ensures { option_copied result ≡ spec.name_of part.now }
{
    match part {
        Part::Interface(interface) => Some(&interface.name),
        Part::Module(module) => Some(&module.head.name),
        Part::Config(config) => Some(&config.head.name),
        Part::Header => None,
    }
}

// The places of elements by name.
fn places_of(alloc: Global, elems: &[Elem]) -> Result<Places, NoMemory>
    ensures { IfOk result (λ t. (name : ListOf ℕ) → place_of t name ≡ element_in elems.now name) }
{
    let mut places = Places::new(alloc);
    let mut at = elems.len();
    while at > 0 {
        at -= 1;
        places.set(&elems[at].name, at)?;
    }
    Ok(places)
}

/// For each file the places of its component's elements by name.
#[tactic(auto, using(crate::proofs::Placed::table_more))]
pub fn tables_of(alloc: Global, units: &[Loaded]) -> Result<Vec<Places>, NoMemory>
    ensures { IfOk result (λ tables. map place_of tables.items ≡ map places_in units.now) }
{
    let mut tables = Vec::new(alloc);
    let mut rest = units;
    while let Some((loaded, more)) = rest.split_first() {
        tables.push(places_of(alloc, elems_of(&loaded.unit.part))?)?;
        rest = more;
    }
    Ok(tables)
}

fn name_in(units: &[Loaded], component: usize) -> Option<&Name>
    ensures { option_copied result ≡ name_in (slice_get units.now component) }
{
    match units.get(component) {
        Some(loaded) => name_of(&loaded.unit.part),
        None => None,
    }
}

fn put(places: &mut Places, name: Option<&Name>, number: usize) -> Result<(), NoMemory>
    ensures { OnOk result ((other : ListOf ℕ) → place_of places.new other ≡ if is_named other (option_copied name.entry) then Some number else place_of places.old other) }
{
    match name {
        Some(name) => places.set(name, number),
        None => Ok(()),
    }
}

/// The first instance of the component of each name.
pub fn singles_of(alloc: Global, units: &[Loaded], made: &[Made]) -> Result<Places, NoMemory>
    ensures { IfOk result (λ t. (name : ListOf ℕ) → place_of t name ≡ single units.now made.now name) }
{
    let mut places = Places::new(alloc);
    let mut at = made.len();
    while at > 0 {
        at -= 1;
        put(&mut places, name_in(units, made[at].component), at)?;
    }
    Ok(places)
}
