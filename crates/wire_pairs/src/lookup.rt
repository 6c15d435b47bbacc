//! Look-ups in an application.

ghost use Rattle.std.specs.Prelude.{◌≡◌, ℕ, List as ListOf, map};
ghost use Rattle.indexmap.specs.IndexMap.{get};
ghost use Rattle.wire_names.specs.Places.{place_of};
ghost use Rattle.wire_pairs.specs.Application.{places_in, single, made_at};
ghost use Rattle.wire_pairs.specs.Makers.{same_line};

use crate::facts::InstanceFacts;
use crate::makers::{Makers, makers_of};
use crate::tables::{singles_of, tables_of};
use nm_base::{NoMemory, beside};
use std::alloc::Global;
use wire_instances::Made;
use wire_names::Places;
use wire_units::Loaded;

/// The files and instances of an application with what is told of them, and tables of the elements of each file's component, of
/// the instances of components that are not generic, and of those that lines made.
#[derive(Drop)]
pub struct Lookup<'u> {
    pub units: &'u [Loaded],
    pub made: &'u [Made],
    pub facts: &'u [InstanceFacts],
    pub elements: Vec<Places>,
    pub singles: Places,
    pub makers: Makers,
    ghost placed: { map place_of elements.items ≡ map places_in units.now },
    ghost alone: { (name : ListOf ℕ) → place_of singles name ≡ single units.now made.now name },
    ghost made_by: { (instance line : ℕ) → get same_line makers (instance, line) ≡ made_at made.now instance line },
}

impl<'u> Lookup<'u> {
    ghost use Rattle.std.specs.Prelude.{◌≡◌, IfOk};

    /// The look-ups of this application, in time linear in its specifications and instances.
    pub fn new(
        alloc: Global,
        units: &'u [Loaded],
        made: &'u [Made],
        facts: &'u [InstanceFacts],
    ) -> Result<Lookup<'u>, NoMemory>
        ensures units { IfOk result (λ l. l.units.now ≡ units.now) }
        ensures made { IfOk result (λ l. l.made.now ≡ made.now) }
        ensures facts { IfOk result (λ l. l.facts.now ≡ facts.now) }
    {
        let elements = tables_of(alloc, units)?;
        let (elements, singles) = beside(elements, singles_of(alloc, units, made))?;
        let (tables, makers) = beside((elements, singles), makers_of(alloc, made))?;
        let (elements, singles) = tables;
        Ok(Lookup {
            units,
            made,
            facts,
            elements,
            singles,
            makers,
        })
    }
}
