//! Places by name.

ghost use Rattle.std.specs.Prelude.{◌≡◌, ℕ, List, [], Some, OnOk, OnErr, bytes_eq, if◌then◌else◌};
ghost use Rattle.wire_names.specs.Places.{place_of};

use crate::name_table::copied;
use indexmap::IndexMap;
use nm_base::{Name, NoMemory};
use std::alloc::Global;
use std::marker::Model;

/// Names with a place of each.
#[derive(Debug, Drop)]
pub struct Places {
    alloc: Global,
    places: IndexMap<Vec<u8>, usize>,
}

impl Model for Places {
    ghost use Rattle.wire_names.specs.Places.{Placed, held};

    ghost Value = { Placed };

    ghost view = { λ t. held t.places.entries };
}

impl Places {
    /// No name has a place.
    pub fn new(alloc: Global) -> Places
        ensures { result ≡ [] }
    {
        Places {
            alloc,
            places: IndexMap::new(alloc),
        }
    }

    /// The place of this name.
    pub fn get(&self, name: &Name) -> Option<usize>
        ensures { result ≡ place_of self.now name.now }
    {
        self.places.get(name.as_bytes()).copied()
    }

    /// From here on the name has this place, and no other one.
    pub fn set(&mut self, name: &Name, place: usize) -> Result<(), NoMemory>
        ensures set { OnOk result ((other : List ℕ) → place_of self.new other ≡ if bytes_eq other name.now then Some place else place_of self.old other) }
        ensures lent { OnErr result (self.new ≡ self.old) }
    {
        let key = copied(self.alloc, name.as_bytes())?;
        self.places.insert(key, place)?;
        Ok(())
    }
}
