//! Names and places in the text.

ghost use Rattle.std.specs.Prelude.{◌≡◌, ◌++◌, map, OnOk, codes, decimal, slice_get};
ghost use Rattle.std.specs.List.{flat_map};
ghost use Rattle.nesc_core.specs.View.{body_of, object_of, program_of};
ghost use Rattle.nesc_preproc.specs.Kept.{name_at};
ghost use Rattle.race_text.specs.Text as spec;

use nesc_core::Program;
use nesc_preproc::Reading;
use nm_base::{NoMemory, Path, Pos};
use std::alloc::Global;

fn push_file(text: &mut Vec<u8>, files: &Reading, file: u32) -> Result<(), NoMemory>
    ensures { OnOk result (text.new.items ≡ text.old.items ++ spec.file_name (name_at files.now file)) }
{
    if let Some(name) = files.name(file) {
        text.extend_from_slice(name.as_bytes())?;
    }
    Ok(())
}

fn push_numbers(alloc: Global, text: &mut Vec<u8>, at: Pos) -> Result<(), NoMemory>
    ensures { OnOk result (text.new.items ≡ text.old.items ++ (codes ":" ++ (decimal at.line ++ (codes ":" ++ decimal at.col)))) }
{
    let line = at.line;
    let column = at.col;
    let place = format!(in alloc; ":{line}:{column}")?;
    text.extend_from_slice(place.as_bytes())?;
    Ok(())
}

/// The file, the line and the column of a place.
pub(crate) fn push_place(
    alloc: Global,
    text: &mut Vec<u8>,
    files: &Reading,
    at: Pos,
) -> Result<(), NoMemory>
    ensures { OnOk result (text.new.items ≡ text.old.items ++ spec.place_text (name_at files.now) at) }
{
    push_file(text, files, at.file)?;
    push_numbers(alloc, text, at)
}

/// The name of object `x`.
pub(crate) fn push_object(text: &mut Vec<u8>, p: &Program, x: u32) -> Result<(), NoMemory>
    ensures { OnOk result (text.new.items ≡ text.old.items ++ spec.object_name (slice_get (map object_of p.now.objects) x)) }
{
    if let Some(o) = p.objects.as_slice().get(x as usize) {
        text.extend_from_slice(o.name.as_bytes())?;
    }
    Ok(())
}

fn push_body(text: &mut Vec<u8>, p: &Program, f: u32) -> Result<(), NoMemory>
    ensures { OnOk result (text.new.items ≡ text.old.items ++ spec.body_name (slice_get (map body_of p.now.bodies) f)) }
{
    if let Some(body) = p.bodies.as_slice().get(f as usize) {
        text.extend_from_slice(body.name.as_bytes())?;
    }
    Ok(())
}

fn push_behind(text: &mut Vec<u8>, p: &Program, f: u32) -> Result<(), NoMemory>
    ensures { OnOk result (text.new.items ≡ text.old.items ++ spec.behind_text (program_of p.now) f) }
{
    text.extend_from_slice(b" > ")?;
    push_body(text, p, f)
}

// The bodies behind the first.
#[tactic(auto, using(crate::proofs::TextLemmas::lines))]
fn push_rest(text: &mut Vec<u8>, p: &Program, rest: &[u32]) -> Result<(), NoMemory>
    ensures { OnOk result (text.new.items ≡ text.old.items ++ flat_map (spec.behind_text (program_of p.now)) rest.now) }
{
    for f in rest {
        push_behind(text, p, *f)?;
    }
    Ok(())
}

/// Adds the names of a path's bodies to a text, with ` > ` between them. Where there is no memory, what the text then holds is not told.
pub fn push_path(text: &mut Vec<u8>, p: &Program, path: &Path) -> Result<(), NoMemory>
    ensures { OnOk result (text.new.items ≡ text.old.items ++ spec.path_text (program_of p.now) path.now) }
{
    let Some((first, rest)) = path.as_slice().split_first() else {
        return Ok(());
    };
    push_body(text, p, *first)?;
    push_rest(text, p, rest)
}
