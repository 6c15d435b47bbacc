//! Numbers by name, of which the first counts.

ghost use Rattle.std.specs.Prelude.{◌≡◌, ℕ, List, [], Some, IfOk, OnOk, bytes_eq, if◌then◌else◌};
ghost use Rattle.std.specs.Option.{option_or};
ghost use Rattle.wire_names.specs.Places.{place_of};
ghost use Rattle.elab_targets.specs.Tables.{when};

use indexmap::IndexMap;
use nm_base::{Name, NoMemory};
use std::alloc::Global;
use std::marker::Model;

/// Names with a number of each, the first that was told.
#[derive(Drop)]
pub struct Firsts {
    alloc: Global,
    places: IndexMap<Vec<u8>, u32>,
}

impl Model for Firsts {
    ghost use Rattle.wire_names.specs.Places.{Placed, held};

    ghost Value = { Placed };

    ghost view = { λ t. held t.places.entries };
}

fn copied(alloc: Global, text: &[u8]) -> Result<Vec<u8>, NoMemory>
    ensures { IfOk result (λ v. v.items ≡ text.now) }
{
    Ok(text.to_vec(alloc)?)
}

impl Firsts {
    /// No name has a number.
    pub fn new(alloc: Global) -> Firsts
        ensures { result ≡ [] }
    {
        Firsts {
            alloc,
            places: IndexMap::new(alloc),
        }
    }

    /// The number of the name.
    pub fn get(&self, name: &Name) -> Option<u32>
        ensures { result ≡ place_of self.now name.now }
    {
        self.places.get(name.as_bytes()).copied()
    }

    fn set(&mut self, name: &Name, place: u32) -> Result<(), NoMemory>
        ensures { OnOk result ((other : List ℕ) → place_of self.new other ≡ if bytes_eq other name.now then Some place else place_of self.old other) }
    {
        let key = copied(self.alloc, name.as_bytes())?;
        self.places.insert(key, place)?;
        Ok(())
    }

    /// Gives the name this number, where it has none.
    pub fn keep(&mut self, name: &Name, place: u32) -> Result<(), NoMemory>
        ensures { OnOk result ((other : List ℕ) → place_of self.new other ≡ option_or (place_of self.old other) (when (bytes_eq name.now other) place)) }
    {
        match self.get(name) {
            Some(_) => Ok(()),
            None => self.set(name, place),
        }
    }
}
