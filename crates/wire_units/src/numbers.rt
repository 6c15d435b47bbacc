//! The numbers of files.

ghost use Rattle.std.specs.Prelude.{◌≡◌, ℕ, List as ListOf, Some, IfOk, OnOk, if◌then◌else◌};
ghost use Rattle.wire_names.specs.Places.{place_of};
ghost use Rattle.wire_units.specs.Units.{number_of, name_of, is_named};

use crate::loaded::{Loaded, name_of};
use nm_base::NoMemory;
use std::alloc::Global;
use wire_names::Places;

fn put(places: &mut Places, loaded: &Loaded, number: usize) -> Result<(), NoMemory>
    ensures { OnOk result ((other : ListOf ℕ) → place_of places.new other ≡ if is_named other (name_of loaded.now.unit.part) then Some number else place_of places.old other) }
{
    match name_of(&loaded.unit.part) {
        Some(name) => places.set(name, number),
        None => Ok(()),
    }
}

/// The number of the first file of each name.
pub fn numbers_of(alloc: Global, units: &[Loaded]) -> Result<Places, NoMemory>
    ensures { IfOk result (λ places. (name : ListOf ℕ) → place_of places name ≡ number_of units.now name) }
{
    let mut places = Places::new(alloc);
    let mut at = units.len();
    while at > 0 {
        at -= 1;
        put(&mut places, &units[at], at)?;
    }
    Ok(places)
}
