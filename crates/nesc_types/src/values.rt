//! Constants by name.

ghost use Rattle.std.specs.Prelude.{◌≡◌, ℕ, List, [], IfOk, OnErr, OnOk};
ghost use Rattle.nesc_types.specs.Values.{value_of, with_value};

use indexmap::IndexMap;
use nm_base::{IntType, Name, NoMemory};
use std::alloc::Global;
use std::marker::Model;

/// A type, and a number of it.
pub type Constant = (IntType, i64);

/// Constants by name, in the order in which they were first set.
#[derive(Debug, Drop)]
pub struct Constants {
    alloc: Global,
    values: IndexMap<Vec<u8>, (IntType, i64)>,
}

impl Model for Constants {
    ghost use Rattle.nesc_types.specs.Values.{Values, held};

    ghost Value = { Values };

    ghost view = { λ t. held t.values.entries };
}

fn copied(alloc: Global, text: &[u8]) -> Result<Vec<u8>, NoMemory>
    ensures { IfOk result (λ v. v.items ≡ text.now) }
{
    Ok(text.to_vec(alloc)?)
}

impl Constants {
    pub fn new(alloc: Global) -> Constants
        ensures { result ≡ [] }
    {
        Constants {
            alloc,
            values: IndexMap::new(alloc),
        }
    }

    /// The constant of this name.
    pub fn get(&self, name: &Name) -> Option<Constant>
        ensures { result ≡ value_of self.now name.now }
    {
        self.values.get(name.as_bytes()).copied()
    }

    /// From here on the name has this value, in place of an earlier one.
    pub fn set(&mut self, name: &Name, t: IntType, value: i64) -> Result<(), NoMemory>
        ensures set { OnOk result (self.new ≡ with_value name.now (t, value) self.old) }
        ensures found { OnOk result (value_of self.new name.now ≡ Some (t, value)) }
        ensures others { OnOk result ((other : List ℕ) → ¬ (other ≡ name.now) → value_of self.new other ≡ value_of self.old other) }
        ensures lent { OnErr result (self.new ≡ self.old) }
    {
        let key = copied(self.alloc, name.as_bytes())?;
        self.values.insert(key, (t, value))?;
        Ok(())
    }
}
