//! Types that were met, by number.

ghost use Rattle.std.specs.Prelude.{◌≡◌, ◌++◌, ◌∷◌, [], cond, IfOk, OnErr, OnOk};
ghost use Rattle.std.specs.List.{list_any, position_or_len};
ghost use Rattle.nesc_core.specs.View.{type_of};
ghost use Rattle.wire_names.specs.Texts.{same_text, texts};
ghost use Rattle.wire_facts.specs.Seen.{numbered};
ghost use Rattle.wire_scopes.specs.Keys as spec;
ghost use Rattle.wire_scopes.specs.Keys.{AreKeys, key_of, types_in};

use indexmap::IndexSet;
use nesc_core::CoreType;
use nm_base::{IntType, NoMemory};
use std::alloc::Global;
use std::marker::Model;

/// Types with their numbers, the order in which they were met. Contracts see it as the list of their keys, of which `types_in` gives
/// the types.
#[derive(Drop)]
pub struct Types {
    alloc: Global,
    keys: IndexSet<Vec<u32>>,
}

impl Model for Types {
    ghost use Rattle.std.specs.Prelude.{List, ℕ};
    ghost use Rattle.wire_names.specs.Texts.{texts};
    ghost use Rattle.wire_scopes.specs.Keys.{AreKeys};

    ghost Value = { List (List ℕ) };

    ghost view = { λ t. texts t.keys.keys };

    ghost invariant = { λ t. AreKeys (texts t.keys.keys) };
}

fn number_of(t: IntType) -> u32
    ensures { result ≡ spec.number_of t }
{
    match t {
        IntType::I8 => 0,
        IntType::U8 => 1,
        IntType::I16 => 2,
        IntType::U16 => 3,
        IntType::I32 => 4,
        IntType::U32 => 5,
    }
}

// A type's form stands first, then its number, and then what it is of.
fn push_key(key: &mut Vec<u32>, t: &CoreType) -> Result<(), NoMemory>
    ensures { IfOk result (λ _. key.new.items ≡ key.old.items ++ key_of (type_of t.now)) }
{
    match t {
        CoreType::Void => key.push(0)?,
        CoreType::Int(t) => key.extend_from_slice(&[1, number_of(*t)])?,
        CoreType::Pointer(part) => {
            key.push(2)?;
            push_key(key, part)?;
        }
        CoreType::Array(part, count) => {
            key.extend_from_slice(&[3, *count])?;
            push_key(key, part)?;
        }
        CoreType::Struct(k) => key.extend_from_slice(&[4, *k])?,
    }
    Ok(())
}

// The number of the key: the one that it has, or the next.
fn add(keys: &mut IndexSet<Vec<u32>>, key: Vec<u32>) -> Result<usize, NoMemory>
    ensures number { IfOk result (λ k. k ≡ position_or_len (same_text key.items) (texts keys.old.keys)) }
    ensures keys { OnOk result (texts keys.new.keys ≡ cond (list_any (same_text key.items) (texts keys.old.keys)) (texts keys.old.keys) (texts keys.old.keys ++ key.items ∷ [])) }
    ensures err { OnErr result (texts keys.new.keys ≡ texts keys.old.keys) }
{
    let (number, _) = keys.insert_full(key)?;
    Ok(number)
}

// The number of the type among those of the keys.
#[tactic(auto, using(crate::proofs::Keys::keyed))]
fn number_in(alloc: Global, keys: &mut IndexSet<Vec<u32>>, t: &CoreType) -> Result<usize, NoMemory>
    requires { AreKeys (texts keys.old.keys) }
    ensures number { IfOk result (λ k. k ≡ (numbered (types_in (texts keys.old.keys)) (type_of t.now)).0) }
    ensures types { OnOk result (types_in (texts keys.new.keys) ≡ (numbered (types_in (texts keys.old.keys)) (type_of t.now)).1) }
    ensures keys { AreKeys (texts keys.new.keys) }
{
    let mut key = Vec::new(alloc);
    push_key(&mut key, t)?;
    add(keys, key)
}

impl Types {
    /// No type was met.
    pub fn new(alloc: Global) -> Types
        ensures { types_in result ≡ [] }
    {
        Types {
            alloc,
            keys: IndexSet::new(alloc),
        }
    }

    /// The number of the type: the one that it has, or the next.
    pub fn number(&mut self, t: &CoreType) -> Result<usize, NoMemory>
        ensures number { IfOk result (λ k. k ≡ (numbered (types_in self.old) (type_of t.now)).0) }
        ensures types { OnOk result (types_in self.new ≡ (numbered (types_in self.old) (type_of t.now)).1) }
    {
        number_in(self.alloc, &mut self.keys, t)
    }
}
