//! Type names, and names that hide them.

ghost use Rattle.std.specs.Prelude.{◌≡◌, [], IfOk, OnErr, OnOk, false, true};
ghost use Rattle.nesc_tree.specs.Changes.{taken_back};
ghost use Rattle.nesc_tree.specs.Sorts.{declared, is_type};

use indexmap::IndexMap;
use nm_base::{Name, NoMemory};
use std::alloc::Global;
use std::marker::Model;

/// The names that are declared, with whether each is a type name.
#[derive(Debug, Drop)]
pub struct TypeNames {
    alloc: Global,
    names: IndexMap<Vec<u8>, bool>,
}

impl Model for TypeNames {
    ghost use Rattle.std.specs.Prelude.{List, ℕ, Bool};
    ghost use Rattle.nesc_tree.specs.Bindings.{bindings};

    ghost Value = { List (List ℕ × Bool) };

    ghost view = { λ t. bindings t.names.entries };
}

/// What a declaration changed: the place of its name, and whether that was a type name, if it was declared before.
#[derive(Clone, Copy, Debug)]
pub struct Change {
    at: usize,
    was: Option<bool>,
}

fn copied(alloc: Global, text: &[u8]) -> Result<Vec<u8>, NoMemory>
    ensures { IfOk result (λ v. v.items ≡ text.now) }
{
    Ok(text.to_vec(alloc)?)
}

impl TypeNames {
    pub fn new(alloc: Global) -> TypeNames
        ensures { result ≡ [] }
    {
        TypeNames {
            alloc,
            names: IndexMap::new(alloc),
        }
    }

    /// Whether the name is a type name.
    pub fn has(&self, name: &Name) -> bool
        ensures { result ≡ is_type self.now name.now }
    {
        self.names.get(name.as_bytes()).copied().unwrap_or(false)
    }

    /// From here on the name is a type name.
    pub fn add(&mut self, name: &Name) -> Result<(), NoMemory>
        ensures added { OnOk result (self.new ≡ declared name.now true self.old) }
        ensures lent { OnErr result (self.new ≡ self.old) }
    {
        self.declare(name, true)
    }

    /// From here on the name is no type name: another declaration hides it.
    pub fn hide(&mut self, name: &Name) -> Result<(), NoMemory>
        ensures hidden { OnOk result (self.new ≡ declared name.now false self.old) }
        ensures lent { OnErr result (self.new ≡ self.old) }
    {
        self.declare(name, false)
    }

    /// Declares the name as a type name or as none, and tells how to take that back.
    pub fn change(&mut self, name: &Name, is_type: bool) -> Result<Change, NoMemory>
        ensures declared { OnOk result (self.new ≡ declared name.now is_type self.old) }
        ensures back { IfOk result (λ c. taken_back c self.new ≡ self.old) }
        ensures lent { OnErr result (self.new ≡ self.old) }
    {
        let key = copied(self.alloc, name.as_bytes())?;
        let (at, was) = self.names.insert_full(key, is_type)?;
        Ok(Change { at, was })
    }

    /// Takes a change back; of several, the last one comes first.
    pub fn take_back(&mut self, change: Change)
        ensures { self.new ≡ taken_back change self.old }
    {
        match change.was {
            None => self.names.truncate(change.at),
            Some(is_type) => {
                if let Some(flag) = self.names.get_index_mut(change.at) {
                    *flag = is_type;
                }
            }
        }
    }

    fn declare(&mut self, name: &Name, is_type: bool) -> Result<(), NoMemory>
        ensures declared { OnOk result (self.new ≡ declared name.now is_type self.old) }
        ensures lent { OnErr result (self.new ≡ self.old) }
    {
        let key = copied(self.alloc, name.as_bytes())?;
        self.names.insert(key, is_type)?;
        Ok(())
    }
}
