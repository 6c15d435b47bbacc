//! Numbers by the names of an element and an item, of which the first counts.

ghost use Rattle.std.specs.Prelude.{◌≡◌, ℕ, List, None, IfOk, OnOk};
ghost use Rattle.std.specs.Option.{option_or};
ghost use Rattle.indexmap.specs.IndexMap.{get};
ghost use Rattle.elab_targets.specs.Tables.{IsKept, HasNone, item_place, same_pair, when};

use indexmap::IndexMap;
use nm_base::{Name, NoMemory};
use std::alloc::Global;
use wire_names::NameTable;

type Pairs = IndexMap<(usize, usize), u32>;

/// Pairs of names with a number of each, the first that was told.
#[derive(Drop)]
pub struct ItemPlaces {
    names: NameTable,
    places: Pairs,
}

fn keep_at(places: &mut Pairs, pair: (usize, usize), place: u32) -> Result<(), NoMemory>
    ensures { OnOk result ((i j : ℕ) → get same_pair places.new (i, j) ≡ option_or (get same_pair places.old (i, j)) (when (same_pair pair (i, j)) place)) }
{
    if places.get(&pair).is_some() {
        return Ok(());
    }
    places.insert(pair, place)?;
    Ok(())
}

impl ItemPlaces {
    /// No pair has a number.
    pub fn new(alloc: Global) -> ItemPlaces
        ensures { HasNone result }
    {
        ItemPlaces {
            names: NameTable::new(alloc),
            places: IndexMap::new(alloc),
        }
    }

    /// The number of the item of the element.
    pub fn get(&self, element: &Name, item: &Name) -> Option<u32>
        ensures { result ≡ item_place self.now element.now item.now }
    {
        let element = self.names.find(element)?;
        let item = self.names.find(item)?;
        self.places.get(&(element, item)).copied()
    }

    /// Gives the item of the element this number, where it has none.
    pub fn keep(&mut self, element: &Name, item: &Name, place: u32) -> Result<(), NoMemory>
        ensures { OnOk result (IsKept element.now item.now place self.old self.new) }
    {
        let element = self.names.add(element)?;
        let item = self.names.add(item)?;
        keep_at(&mut self.places, (element, item), place)
    }
}
