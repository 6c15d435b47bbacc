//! Copies of scopes.

ghost use Rattle.std.specs.Prelude.{◌≡◌, IfOk, map};
ghost use Rattle.elab_meaning.specs.View.{entry_of, meaning_of, tag_of};
ghost use Rattle.wire_scopes.specs.View.{scope_of};

use crate::scopes::Scope;
use elab_meaning::{Entry, Meaning, Tag};
use elab_names::all_copied;
use elab_values::copied;
use nm_base::{List, Name, NoMemory, beside};
use std::alloc::{AllocError, Global};

fn copied_meaning(alloc: Global, meaning: &Meaning) -> Result<Meaning, NoMemory>
    ensures { IfOk result (λ m. meaning_of m ≡ meaning_of meaning.now) }
{
    match meaning {
        Meaning::Object(k, t, is_const) => Ok(Meaning::Object(*k, copied(alloc, t)?, *is_const)),
        Meaning::Local(k, t, is_const) => Ok(Meaning::Local(*k, copied(alloc, t)?, *is_const)),
        Meaning::Function(body, params, result) => {
            let params = all_copied(alloc, params.as_slice())?;
            let (params, result) = beside(params, copied(alloc, result))?;
            Ok(Meaning::Function(*body, List::new(params), result))
        }
        Meaning::Task(k) => Ok(Meaning::Task(*k)),
        Meaning::Constant(t, n) => Ok(Meaning::Constant(*t, *n)),
        Meaning::Type(t, is_const) => Ok(Meaning::Type(copied(alloc, t)?, *is_const)),
    }
}

fn copied_entry(alloc: Global, entry: &Entry) -> Result<Entry, NoMemory>
    ensures { IfOk result (λ e. entry_of e ≡ entry_of entry.now) }
{
    let meaning = copied_meaning(alloc, &entry.meaning)?;
    let name: Result<Name, AllocError> = entry.name.clone();
    let (meaning, name) = beside(meaning, name)?;
    Ok(Entry { name, meaning })
}

fn copied_entries(alloc: Global, entries: &[Entry]) -> Result<Vec<Entry>, NoMemory>
    ensures { IfOk result (λ v. map entry_of v.items ≡ map entry_of entries.now) }
{
    let mut copies = Vec::new(alloc);
    for entry in entries {
        copies.push(copied_entry(alloc, entry)?)?;
    }
    Ok(copies)
}

fn copied_tag(tag: &Tag) -> Result<Tag, NoMemory>
    ensures { IfOk result (λ t. tag_of t ≡ tag_of tag.now) }
{
    Ok(Tag {
        name: tag.name.clone()?,
        kind: tag.kind,
    })
}

fn copied_tags(alloc: Global, tags: &[Tag]) -> Result<Vec<Tag>, NoMemory>
    ensures { IfOk result (λ v. map tag_of v.items ≡ map tag_of tags.now) }
{
    let mut copies = Vec::new(alloc);
    for tag in tags {
        copies.push(copied_tag(tag)?)?;
    }
    Ok(copies)
}

/// The same names and tags once more.
pub fn copied_scope(alloc: Global, scope: &Scope) -> Result<Scope, NoMemory>
    ensures { IfOk result (λ s. scope_of s ≡ scope_of scope.now) }
{
    let names = copied_entries(alloc, &scope.names)?;
    let (names, tags) = beside(names, copied_tags(alloc, &scope.tags))?;
    Ok(Scope { names, tags })
}
