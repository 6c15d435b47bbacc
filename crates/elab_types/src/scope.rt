//! What tags in force mean, and what a scope declares.

ghost use Rattle.std.specs.Prelude.{◌≡◌, map};
ghost use Rattle.std.specs.Option.{option_map};
ghost use Rattle.elab_meaning.specs.Scope as spec;
ghost use Rattle.elab_meaning.specs.View.{entry_of, kind_of, tag_of};

use elab_meaning::{Entry, Kind, Tag, is_named, is_tagged};
use nm_base::Name;

/// What a tag names: its last declaration hides the others.
#[tactic(auto, using(crate::proofs::Tables::tables))]
pub fn look_up_tag(tags: &[Tag], name: &Name) -> Option<Kind>
    ensures { option_map kind_of result ≡ spec.lookup_tag (map tag_of tags.now) name.now }
{
    let mut older = tags;
    'tags: while let Some((tag, rest)) = older.split_last() {
        if is_tagged(tag, name) {
            return Some(tag.kind);
        }
        older = rest;
    }
    None
}

/// Whether some entry has the name.
#[tactic(auto, using(crate::proofs::Tables::tables))]
pub fn declares(names: &[Entry], name: &Name) -> bool
    ensures { result ≡ spec.declares (map entry_of names.now) name.now }
{
    for entry in names {
        if is_named(entry, name) {
            return true;
        }
    }
    false
}

/// Whether some tag has the name.
#[tactic(auto, using(crate::proofs::Tables::tables))]
pub fn declares_tag(tags: &[Tag], name: &Name) -> bool
    ensures { result ≡ spec.declares_tag (map tag_of tags.now) name.now }
{
    for tag in tags {
        if is_tagged(tag, name) {
            return true;
        }
    }
    false
}
