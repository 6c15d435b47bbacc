//! Names of files, by which tables find them.

ghost use Rattle.std.specs.Prelude.{◌≡◌, nat_eq, IfOk};
ghost use Rattle.std.specs.Cmp.Lexicographic.{pointwise, nat_list_eq_equiv};
ghost use Rattle.std.specs.Cmp.{partial_equiv_from_equiv};
ghost use Rattle.std.specs.Cmp.Rules.{hashing};
ghost use Rattle.std.specs.Hash as fed;
ghost use Rattle.std.proofs.Common.{rules};

use nm_base::{Name, NoMemory};
use std::hash::{Hash, Hasher};
use std::marker::Model;

/// The name of a file, which contracts see as its bytes.
#[derive(Debug, Drop)]
pub(crate) struct FileName {
    name: Name,
}

impl Model for FileName {
    ghost use Rattle.std.specs.Prelude.{List, ℕ};

    ghost Value = { List ℕ };

    ghost view = { λ n. n.name };
}

impl FileName {
    pub fn of(name: &Name) -> Result<FileName, NoMemory>
        ensures { IfOk result (λ n. n ≡ name.now) }
    {
        Ok(FileName {
            name: name.clone()?,
        })
    }

    pub fn name(&self) -> &Name
        ensures { result.now ≡ self.now }
    {
        &self.name
    }
}

impl PartialEq for FileName {
    ghost eq = { pointwise nat_eq };

    ghost laws = { partial_equiv_from_equiv nat_list_eq_equiv };

    fn eq(&self, other: &FileName) -> bool {
        self.name == other.name
    }
}

impl Eq for FileName {
    ghost laws = { nat_list_eq_equiv };
}

impl Hash for FileName {
    ghost hash_input = { fed.slice fed.u8 };

    ghost respects_eq = { Prim.search (hashing, rules) };

    fn hash<H: Hasher>(&self, state: &mut H) {
        self.name.as_bytes().hash(state);
    }
}
