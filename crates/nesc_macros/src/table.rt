//! Macros by name.

ghost use Rattle.std.specs.Prelude.{◌≡◌, ◌++◌, ◌∷◌, [], IfOk, OnOk, option_copied};
ghost use Rattle.nesc_macros.specs.Invocation.{macro_of};
ghost use Rattle.nesc_macros.specs.Tables.{held, macros_in, number_of, without};
ghost use Rattle.nesc_macros.specs.Code.{IsNumbered};

use crate::definition::{Macro, NumberedMacro};
use indexmap::IndexMap;
use nm_base::{Name, NoMemory};
use std::alloc::Global;

/// All definitions in the order of their lines, and for each name the number of the one that counts, or None where the name
/// is defined no more.
#[derive(Debug, Drop)]
pub struct Table {
    definitions: Vec<Macro>,
    numbers: IndexMap<Vec<u8>, Option<u32>>,
}

fn copied(alloc: Global, text: &[u8]) -> Result<Vec<u8>, NoMemory>
    ensures { IfOk result (λ v. v.items ≡ text.now) }
{
    Ok(text.to_vec(alloc)?)
}

impl Table {
    /// No macro is defined.
    pub fn new(alloc: Global) -> Table
        ensures { macros_in result ≡ [] }
    {
        Table {
            definitions: Vec::new(alloc),
            numbers: IndexMap::new(alloc),
        }
    }

    // The number of the definition of this name that counts.
    fn number_of(&self, name: &Name) -> Option<u32>
        ensures { result ≡ number_of (held self.now.numbers.entries) name.now }
    {
        match self.numbers.get(name.as_bytes()) {
            Some(number) => *number,
            None => None,
        }
    }

    /// The macro of this name, with its number.
    pub fn find(&self, name: &Name) -> Option<NumberedMacro>
        ensures { IsNumbered self.now name.now result }
    {
        let number = self.number_of(name)?;
        let definition = self.definitions.get(number as usize)?;
        if &definition.name == name {
            Some(NumberedMacro { number, definition })
        } else {
            None
        }
    }

    /// Adds a definition, which counts from here on.
    pub fn define(&mut self, alloc: Global, definition: Macro) -> Result<(), NoMemory>
        ensures { OnOk result (macros_in self.new ≡ without definition.name (macros_in self.old) ++ definition ∷ []) }
    {
        let name = copied(alloc, definition.name.as_bytes())?;
        let Ok(number) = u32::try_from(self.definitions.as_slice().len()) else {
            return Err(NoMemory);
        };
        self.numbers.insert(name, Some(number))?;
        self.definitions.push(definition)?;
        Ok(())
    }

    /// From here on no definition of this name counts.
    pub fn undefine(&mut self, alloc: Global, name: &Name) -> Result<(), NoMemory>
        ensures { OnOk result (macros_in self.new ≡ without name.now (macros_in self.old)) }
    {
        let name = copied(alloc, name.as_bytes())?;
        self.numbers.insert(name, None)?;
        Ok(())
    }
}
