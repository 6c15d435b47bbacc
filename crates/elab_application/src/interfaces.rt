//! The interfaces of an application by name.

ghost use Rattle.std.specs.Prelude.{◌≡◌, ℕ, List as ListOf, Some, IfOk, OnOk, if◌then◌else◌, option_copied};
ghost use Rattle.wire_names.specs.Places.{place_of};
ghost use Rattle.wire_units.specs.Units as units;
ghost use Rattle.wire_units.specs.Units.{is_named, number_of};
ghost use Rattle.elab_application.specs.Files.{interface_of};

use nesc_tree::{Interface, Part};
use nm_base::{Name, NoMemory};
use std::alloc::Global;
use wire_names::Places;
use wire_units::Loaded;

fn name_of(part: &Part) -> Option<&Name>
    ensures { option_copied result ≡ units.name_of part.now }
{
    match part {
        Part::Interface(interface) => Some(&interface.name),
        Part::Module(module) => Some(&module.head.name),
        Part::Config(config) => Some(&config.head.name),
        Part::Header => None,
    }
}

fn put(places: &mut Places, loaded: &Loaded, number: usize) -> Result<(), NoMemory>
    ensures { OnOk result ((other : ListOf ℕ) → place_of places.new other ≡ if is_named other (units.name_of loaded.now.unit.part) then Some number else place_of places.old other) }
{
    match name_of(&loaded.unit.part) {
        Some(name) => places.set(name, number),
        None => Ok(()),
    }
}

// The number of the first file of each name.
fn numbers_of(alloc: Global, units: &[Loaded]) -> Result<Places, NoMemory>
    ensures { IfOk result (λ places. (name : ListOf ℕ) → place_of places name ≡ number_of units.now name) }
{
    let mut places = Places::new(alloc);
    let mut at = units.len();
    while at > 0 {
        at -= 1;
        put(&mut places, &units[at], at)?;
    }
    Ok(places)
}

fn interface_of(part: &Part) -> Option<&Interface>
    ensures { option_copied result ≡ interface_of part.now }
{
    match part {
        Part::Interface(interface) => Some(interface),
        Part::Module(_) | Part::Config(_) | Part::Header => None,
    }
}

/// The files of an application, with the number of each name's file.
#[derive(Drop)]
pub struct Interfaces<'u> {
    pub units: &'u [Loaded],
    places: Places,
    ghost placed: { (name : ListOf ℕ) → place_of places name ≡ number_of units.now name },
}

impl<'u> Interfaces<'u> {
    ghost use Rattle.std.specs.Prelude.{◌≡◌, IfOk, option_copied};
    ghost use Rattle.elab_application.specs.Files.{interface_named};

    /// The interfaces in these files.
    pub fn new(alloc: Global, units: &'u [Loaded]) -> Result<Interfaces<'u>, NoMemory>
        ensures { IfOk result (λ table. table.units.now ≡ units.now) }
    {
        let places = numbers_of(alloc, units)?;
        Ok(Interfaces { units, places })
    }

    /// The interface of this name.
    pub fn find(&self, name: &Name) -> Option<&'u Interface>
        ensures { option_copied result ≡ interface_named self.now.units.now name.now }
    {
        let number = self.places.get(name)?;
        let loaded = self.units.get(number)?;
        interface_of(&loaded.unit.part)
    }
}
