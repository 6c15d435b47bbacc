//! What the lines of instances look into.

ghost use Rattle.std.specs.Prelude.{◌≡◌, ℕ};
ghost use Rattle.indexmap.specs.IndexMap.{get};
ghost use Rattle.wire_pairs.specs.Application as spec;
ghost use Rattle.wire_pairs.specs.Makers.{same_line};

use crate::sources::Sources;
use nm_base::NoMemory;
use std::alloc::Global;
use wire_pairs::{Makers, made_at, makers_of};
use wire_scopes::Base;

/// An application, the names and tags of its headers, and a table of the instances that its lines made.
#[derive(Drop)]
pub struct Lookup<'u> {
    pub sources: &'u Sources<'u>,
    pub base: Base,
    pub makers: Makers,
    ghost made_by: { (instance line : ℕ) → get same_line makers (instance, line) ≡ spec.made_at sources.now.made.now instance line },
}

impl<'u> Lookup<'u> {
    ghost use Rattle.std.specs.Prelude.{◌≡◌, IfOk};
    ghost use Rattle.wire_pairs.specs.Application as spec;

    /// The look-ups of this application, in time linear in its instances.
    pub fn new(alloc: Global, sources: &'u Sources<'u>, base: Base) -> Result<Lookup<'u>, NoMemory>
        ensures sources { IfOk result (λ l. l.sources.now ≡ sources.now) }
        ensures base { IfOk result (λ l. l.base ≡ base) }
    {
        let makers = makers_of(alloc, sources.made)?;
        Ok(Lookup {
            sources,
            base,
            makers,
        })
    }

    /// The instance that a line made.
    pub fn made_at(&self, instance: usize, line: usize) -> Option<usize>
        ensures { result ≡ spec.made_at self.now.sources.now.made.now instance line }
    {
        made_at(&self.makers, instance, line)
    }
}
