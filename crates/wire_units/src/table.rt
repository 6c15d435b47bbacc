//! The files of an application by name.

ghost use Rattle.std.specs.Prelude.{◌≡◌, ℕ, List as ListOf};
ghost use Rattle.wire_names.specs.Places.{place_of};
ghost use Rattle.wire_units.specs.Units.{number_of};
ghost use Rattle.wire_units.specs.Faces.{faces_of};

use crate::face::{Face, faces_of};
use crate::loaded::{Loaded, is_component};
use crate::numbers::numbers_of;
use nm_base::{Name, NoMemory};
use std::alloc::Global;
use wire_names::Places;

/// The files of an application, with the number of each name's file, and the interfaces among them.
#[derive(Drop)]
pub struct Table<'u> {
    pub units: &'u [Loaded],
    places: Places,
    faces: Vec<Option<Face>>,
    ghost placed: { (name : ListOf ℕ) → place_of places name ≡ number_of units.now name },
    ghost faced: { faces.items ≡ faces_of units.now },
}

impl<'u> Table<'u> {
    ghost use Rattle.std.specs.Prelude.{◌≡◌, IfOk};
    ghost use Rattle.wire_units.specs.Units.{component_of};
    ghost use Rattle.wire_units.specs.Faces.{face_of};

    /// The table of these files.
    pub fn new(alloc: Global, units: &'u [Loaded]) -> Result<Table<'u>, NoMemory>
        ensures { IfOk result (λ table. table.units.now ≡ units.now) }
    {
        let places = numbers_of(alloc, units)?;
        let faces = faces_of(alloc, units)?;
        Ok(Table {
            units,
            places,
            faces,
        })
    }

    /// The number of the component of this name.
    pub fn component(&self, name: &Name) -> Option<usize>
        ensures { result ≡ component_of self.now.units.now name.now }
    {
        let number = self.places.get(name)?;
        let loaded = self.units.get(number)?;
        if is_component(&loaded.unit.part) {
            Some(number)
        } else {
            None
        }
    }

    /// The interface of this name.
    pub fn face(&self, name: &Name) -> Option<Face>
        ensures { result ≡ face_of self.now.units.now name.now }
    {
        let number = self.places.get(name)?;
        match self.faces.get(number) {
            Some(face) => *face,
            None => None,
        }
    }
}
