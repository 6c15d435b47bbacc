//! Functions that are called and tasks that are posted, by name.

ghost use Rattle.std.specs.Prelude.{◌≡◌, [], ◌∷◌, ◌++◌, List, OnOk};
ghost use Rattle.program_meaning.specs.Uses as spec;
ghost use Rattle.program_meaning.specs.declared.used.Use.{Use as UseOf};
ghost use Rattle.elab_targets.specs.Places.{AreUsed};

use nm_base::{Name, NoMemory};
use program_meaning::Use;
use std::alloc::Global;
use wire_names::NameTable;

/// The functions that are called and the tasks that are posted, by name.
#[derive(Drop)]
pub struct Used {
    called: NameTable,
    posted: NameTable,
}

impl Used {
    /// Nothing is called or posted.
    pub fn new(alloc: Global) -> Used
        ensures { AreUsed [] result }
    {
        Used {
            called: NameTable::new(alloc),
            posted: NameTable::new(alloc),
        }
    }

    fn add_one(&mut self, one: &Use) -> Result<(), NoMemory>
        ensures { OnOk result ((us : List UseOf) → AreUsed us self.old → AreUsed (us ++ one.now ∷ []) self.new) }
    {
        if one.posts {
            self.posted.add(&one.name)?;
        } else {
            self.called.add(&one.name)?;
        }
        Ok(())
    }

    /// Adds these uses to those that were told, in time linear in their names.
    pub fn add(&mut self, uses: &[Use]) -> Result<(), NoMemory>
        ensures { OnOk result ((us : List UseOf) → AreUsed us self.old → AreUsed (us ++ uses.now) self.new) }
    {
        for one in uses {
            self.add_one(one)?;
        }
        Ok(())
    }

    /// Whether the name is posted or called.
    pub fn has(&self, posts: bool, name: &Name) -> bool
        ensures { (us : List UseOf) → AreUsed us self.now → result ≡ spec.is_used us posts name.now }
    {
        if posts {
            self.posted.has(name)
        } else {
            self.called.has(name)
        }
    }
}
