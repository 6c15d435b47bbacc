//! Tables of names.

ghost use Rattle.std.specs.Prelude.{◌≡◌, [], ◌∷◌, ◌++◌, cond, position, IfOk, OnOk, OnErr};
ghost use Rattle.std.specs.List.{list_any, position_or_len};
ghost use Rattle.wire_names.specs.Texts.{same_text};

use indexmap::IndexSet;
use nm_base::{Name, NoMemory};
use std::alloc::Global;
use std::marker::Model;

/// Names with their numbers, the order in which they were added. Contracts see it as the list of the names.
#[derive(Debug, Drop)]
pub struct NameTable {
    alloc: Global,
    names: IndexSet<Vec<u8>>,
}

impl Model for NameTable {
    ghost use Rattle.std.specs.Prelude.{List, ℕ};
    ghost use Rattle.wire_names.specs.Texts.{texts};

    ghost Value = { List (List ℕ) };

    ghost view = { λ t. texts t.names.keys };
}

/// A copy of the text.
pub fn copied(alloc: Global, text: &[u8]) -> Result<Vec<u8>, NoMemory>
    ensures { IfOk result (λ v. v.items ≡ text.now) }
{
    Ok(text.to_vec(alloc)?)
}

impl NameTable {
    /// No name has a number.
    pub fn new(alloc: Global) -> NameTable
        ensures { result ≡ [] }
    {
        NameTable {
            alloc,
            names: IndexSet::new(alloc),
        }
    }

    /// Whether the name has a number.
    pub fn has(&self, name: &Name) -> bool
        ensures { result ≡ list_any (same_text name.now) self.now }
    {
        self.names.contains(name.as_bytes())
    }

    /// The number of the name.
    pub fn find(&self, name: &Name) -> Option<usize>
        ensures { result ≡ position (same_text name.now) self.now }
    {
        self.names.get_index_of(name.as_bytes())
    }

    /// Gives the name a number: the one that it has, or the next.
    pub fn add(&mut self, name: &Name) -> Result<usize, NoMemory>
        ensures number { IfOk result (λ k. k ≡ position_or_len (same_text name.now) self.old) }
        ensures names { OnOk result (self.new ≡ cond (list_any (same_text name.now) self.old) self.old (self.old ++ name.now ∷ [])) }
        ensures err { OnErr result (self.new ≡ self.old) }
    {
        let key = copied(self.alloc, name.as_bytes())?;
        let (number, _) = self.names.insert_full(key)?;
        Ok(number)
    }
}
