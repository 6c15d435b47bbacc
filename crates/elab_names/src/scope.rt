//! What names in force mean.

ghost use Rattle.std.specs.Prelude.{◌≡◌, map};
ghost use Rattle.std.specs.Option.{option_map};
ghost use Rattle.elab_meaning.specs.Scope as spec;
ghost use Rattle.elab_meaning.specs.View.{entry_of, meaning_of};

use elab_meaning::{Entry, Meaning, is_named};
use nm_base::Name;

/// What a name means: its last declaration hides the others.
#[tactic(auto, using(crate::proofs::Tables::tables))]
pub fn look_up<'a>(names: &'a [Entry], name: &Name) -> Option<&'a Meaning>
    ensures { option_map (λ m. meaning_of m.now) result ≡ spec.lookup (map entry_of names.now) name.now }
{
    let mut older = names;
    'entries: while let Some((entry, rest)) = older.split_last() {
        if is_named(entry, name) {
            return Some(&entry.meaning);
        }
        older = rest;
    }
    None
}
