//! What a declaration of a configuration declares.

ghost use Rattle.std.specs.Prelude.{◌≡◌, Ok, Err, OnOk};
ghost use Rattle.wire_instances.specs.declared.plan.Unmet.{Unmet as UnmetOf};
ghost use Rattle.wire_units.specs.Block.{name_in, tag_in, items_in};
ghost use Rattle.wire_units.specs.Block as spec;
ghost use Rattle.wire_units.specs.BlockView.{items_of};

use crate::scope::declare;
use nesc_tree::EnumItem;
use nm_base::{Name, Pos};
use std::alloc::Global;
use wire_instances::Stop;
use wire_names::NameTable;

/// A block's names, and the tags of its structs and enums.
#[derive(Drop)]
pub struct Block {
    pub names: NameTable,
    pub tags: NameTable,
}

impl Block {
    /// Nothing is declared.
    pub fn new(alloc: Global) -> Block
        ensures { result ≡ spec.nothing }
    {
        Block {
            names: NameTable::new(alloc),
            tags: NameTable::new(alloc),
        }
    }

    /// Declares a name at a place.
    pub fn name(&mut self, name: &Name, at: Pos) -> Result<(), Stop>
        ensures declared { OnOk result (name_in self.old name.now at ≡ Ok self.new) }
        ensures refused { (unmet : UnmetOf) → result ≡ Err (Stop.Unmet unmet) → name_in self.old name.now at ≡ Err unmet }
    {
        declare(&mut self.names, name, at)
    }

    /// Declares a tag, if there is one, at a place.
    pub fn tag(&mut self, tag: &Option<Name>, at: Pos) -> Result<(), Stop>
        ensures declared { OnOk result (tag_in self.old tag.now at ≡ Ok self.new) }
        ensures refused { (unmet : UnmetOf) → result ≡ Err (Stop.Unmet unmet) → tag_in self.old tag.now at ≡ Err unmet }
    {
        match tag {
            Some(tag) => declare(&mut self.tags, tag, at),
            None => Ok(()),
        }
    }

    /// Declares the constants of an enum.
    pub fn items(&mut self, items: &[EnumItem]) -> Result<(), Stop>
        ensures declared { OnOk result (items_in self.old (items_of items.now) ≡ Ok self.new) }
        ensures refused { (unmet : UnmetOf) → result ≡ Err (Stop.Unmet unmet) → items_in self.old (items_of items.now) ≡ Err unmet }
    {
        let mut rest = items;
        while let Some((item, more)) = rest.split_first() {
            self.name(&item.name, item.pos)?;
            rest = more;
        }
        Ok(())
    }
}
