//! The macros that are defined.

ghost use Rattle.std.specs.Prelude.{◌≡◌, ◌++◌, ◌∷◌, [], OnOk, option_copied};
ghost use Rattle.nesc_macros.specs.Invocation.{macro_of};
ghost use Rattle.nesc_macros.specs.Tables.{macros_in, without};

use crate::definition::Macro;
use crate::table::Table;
use nm_base::{Name, NoMemory};
use std::alloc::Global;
use std::marker::Model;

/// The macros that are defined, each found in the time of one look-up. Contracts see them as a list, in the order of their
/// definitions.
#[derive(Debug, Drop)]
pub struct Macros {
    table: Table,
}

impl Model for Macros {
    ghost use Rattle.std.specs.Prelude.{List};
    ghost use Rattle.nesc_macros.specs.declared.definition.Macro.{Macro};
    ghost use Rattle.nesc_macros.specs.Tables.{macros_in};

    ghost Value = { List Macro };

    ghost view = { λ m. macros_in m.table };
}

impl Macros {
    /// No macro is defined.
    pub fn new(alloc: Global) -> Macros
        ensures { result ≡ [] }
    {
        Macros {
            table: Table::new(alloc),
        }
    }

    pub(crate) fn table(&self) -> &Table
        ensures { macros_in result.now ≡ self.now }
    {
        &self.table
    }

    /// The macro of this name.
    pub fn get(&self, name: &Name) -> Option<&Macro>
        ensures { option_copied result ≡ macro_of self.now name.now }
    {
        let found = self.table.find(name)?;
        Some(found.definition)
    }

    /// Defines a macro, in place of an earlier one of its name.
    pub fn define(&mut self, alloc: Global, definition: Macro) -> Result<(), NoMemory>
        ensures { OnOk result (self.new ≡ without definition.name self.old ++ definition ∷ []) }
    {
        self.table.define(alloc, definition)
    }

    /// From here on no macro has this name.
    pub fn undefine(&mut self, alloc: Global, name: &Name) -> Result<(), NoMemory>
        ensures { OnOk result (self.new ≡ without name.now self.old) }
    {
        self.table.undefine(alloc, name)
    }
}
