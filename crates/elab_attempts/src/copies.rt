//! Copies of what is in force.

ghost use Rattle.std.specs.Prelude.{◌≡◌, IfOk, OnOk, map};
ghost use Rattle.nesc_core.specs.View.{field_of};
ghost use Rattle.elab_meaning.specs.View.{entry_of, meaning_of, state_of, struct_of, tag_of};
ghost use Rattle.elab_attempts.specs.Parts.{nothing};

use elab_meaning::{Asked, Entry, Meaning, Struct, Tag, Work};
use elab_names::all_copied;
use elab_values::copied;
use nesc_core::Field;
use nm_base::{List, Name, NoMemory, beside};
use std::alloc::{AllocError, Global};

// ---- names and tags

fn copied_meaning(alloc: Global, meaning: &Meaning) -> Result<Meaning, NoMemory>
    ensures { IfOk result (λ m. meaning_of m ≡ meaning_of meaning.now) }
{
    match meaning {
        Meaning::Object(k, t, is_const) => Ok(Meaning::Object(*k, copied(alloc, t)?, *is_const)),
        Meaning::Local(k, t, is_const) => Ok(Meaning::Local(*k, copied(alloc, t)?, *is_const)),
        Meaning::Function(body, params, result) => {
            let params = all_copied(alloc, params.as_slice())?;
            let (params, result) = beside(params, copied(alloc, result))?;
            Ok(Meaning::Function(*body, List::new(params), result))
        }
        Meaning::Task(k) => Ok(Meaning::Task(*k)),
        Meaning::Constant(t, n) => Ok(Meaning::Constant(*t, *n)),
        Meaning::Type(t, is_const) => Ok(Meaning::Type(copied(alloc, t)?, *is_const)),
    }
}

fn copied_entry(alloc: Global, entry: &Entry) -> Result<Entry, NoMemory>
    ensures { IfOk result (λ e. entry_of e ≡ entry_of entry.now) }
{
    let meaning = copied_meaning(alloc, &entry.meaning)?;
    let name: Result<Name, AllocError> = entry.name.clone();
    let (meaning, name) = beside(meaning, name)?;
    Ok(Entry { name, meaning })
}

fn copied_entries(alloc: Global, entries: &[Entry]) -> Result<Vec<Entry>, NoMemory>
    ensures { IfOk result (λ v. map entry_of v.items ≡ map entry_of entries.now) }
{
    let mut copies = Vec::new(alloc);
    for entry in entries {
        copies.push(copied_entry(alloc, entry)?)?;
    }
    Ok(copies)
}

fn copied_tag(tag: &Tag) -> Result<Tag, NoMemory>
    ensures { IfOk result (λ t. tag_of t ≡ tag_of tag.now) }
{
    Ok(Tag {
        name: tag.name.clone()?,
        kind: tag.kind,
    })
}

fn copied_tags(alloc: Global, tags: &[Tag]) -> Result<Vec<Tag>, NoMemory>
    ensures { IfOk result (λ v. map tag_of v.items ≡ map tag_of tags.now) }
{
    let mut copies = Vec::new(alloc);
    for tag in tags {
        copies.push(copied_tag(tag)?)?;
    }
    Ok(copies)
}

// ---- structs

fn copied_field(alloc: Global, field: &Field) -> Result<Field, NoMemory>
    ensures { IfOk result (λ f. field_of f ≡ field_of field.now) }
{
    let ty = copied(alloc, &field.ty)?;
    let name: Result<Name, AllocError> = field.name.clone();
    let (ty, name) = beside(ty, name)?;
    Ok(Field { name, ty })
}

fn copied_fields(alloc: Global, fields: &[Field]) -> Result<Vec<Field>, NoMemory>
    ensures { IfOk result (λ v. map field_of v.items ≡ map field_of fields.now) }
{
    let mut copies = Vec::new(alloc);
    for field in fields {
        copies.push(copied_field(alloc, field)?)?;
    }
    Ok(copies)
}

fn copied_flags(alloc: Global, flags: &[bool]) -> Result<Vec<bool>, NoMemory>
    ensures { IfOk result (λ v. v.items ≡ flags.now) }
{
    Ok(flags.to_vec(alloc)?)
}

fn copied_struct(alloc: Global, ended: &Struct) -> Result<Struct, NoMemory>
    ensures { IfOk result (λ s. struct_of s ≡ struct_of ended.now) }
{
    let fields = copied_fields(alloc, ended.fields.as_slice())?;
    let (fields, consts) = beside(fields, copied_flags(alloc, ended.consts.as_slice()))?;
    Ok(Struct {
        fields,
        consts,
        layout: ended.layout,
    })
}

fn copied_structs(alloc: Global, structs: &[Struct]) -> Result<Vec<Struct>, NoMemory>
    ensures { IfOk result (λ v. map struct_of v.items ≡ map struct_of structs.now) }
{
    let mut copies = Vec::new(alloc);
    for ended in structs {
        copies.push(copied_struct(alloc, ended)?)?;
    }
    Ok(copies)
}

// ---- work

fn copied_numbers(alloc: Global, numbers: &[u32]) -> Result<Vec<u32>, NoMemory>
    ensures { IfOk result (λ v. v.items ≡ numbers.now) }
{
    Ok(numbers.to_vec(alloc)?)
}

fn copied_asked(alloc: Global, asked: &[Asked]) -> Result<Vec<Asked>, NoMemory>
    ensures { IfOk result (λ v. v.items ≡ asked.now) }
{
    Ok(asked.to_vec(alloc)?)
}

/// Work with nothing in force.
pub(crate) fn no_work(alloc: Global) -> Work
    ensures { state_of result ≡ nothing }
{
    Work {
        names: Vec::new(alloc),
        tags: Vec::new(alloc),
        first_name: 0,
        first_tag: 0,
        structs: Vec::new(alloc),
        locals: Vec::new(alloc),
        taken: Vec::new(alloc),
        asked: Vec::new(alloc),
    }
}

/// The copy has what the work has, in place of what it had.
pub(crate) fn copy_into(alloc: Global, work: &Work, copy: &mut Work) -> Result<(), NoMemory>
    ensures { OnOk result (state_of copy.new ≡ state_of work.now) }
{
    copy.names = copied_entries(alloc, work.names.as_slice())?;
    copy.tags = copied_tags(alloc, work.tags.as_slice())?;
    copy.structs = copied_structs(alloc, work.structs.as_slice())?;
    copy.locals = all_copied(alloc, work.locals.as_slice())?;
    copy.taken = copied_numbers(alloc, work.taken.as_slice())?;
    copy.asked = copied_asked(alloc, work.asked.as_slice())?;
    copy.first_name = work.first_name;
    copy.first_tag = work.first_tag;
    Ok(())
}
