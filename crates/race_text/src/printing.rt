//! The lines of the text.

ghost use Rattle.std.specs.Prelude.{◌≡◌, ◌++◌, ◌∷◌, [], map, IfOk, OnOk, codes};
ghost use Rattle.std.specs.List.{flat_map};
ghost use Rattle.nesc_core.specs.View.{program_of, warning_of};
ghost use Rattle.nesc_preproc.specs.Kept.{name_at};
ghost use Rattle.race_text.specs.Text as spec;

use crate::names::{push_object, push_path, push_place};
use nesc_core::{Program, Warning};
use nesc_preproc::Reading;
use nm_base::NoMemory;
use race_checker::Row;
use std::alloc::Global;

fn push_no_combine(text: &mut Vec<u8>, name: &[u8]) -> Result<(), NoMemory>
    ensures { OnOk result (text.new.items ≡ text.old.items ++ (codes " no combine for " ++ (name.now ++ 10 ∷ []))) }
{
    text.extend_from_slice(b" no combine for ")?;
    text.extend_from_slice(name)?;
    text.push(b'\n')?;
    Ok(())
}

fn push_warning(
    alloc: Global,
    text: &mut Vec<u8>,
    files: &Reading,
    w: &Warning,
) -> Result<(), NoMemory>
    ensures { OnOk result (text.new.items ≡ text.old.items ++ spec.warning_text (name_at files.now) (warning_of w.now)) }
{
    text.extend_from_slice(b"warning ")?;
    push_place(alloc, text, files, w.pos)?;
    push_no_combine(text, w.name.as_bytes())
}

fn push_count(alloc: Global, text: &mut Vec<u8>, count: usize) -> Result<(), NoMemory>
    ensures { OnOk result (text.new.items ≡ text.old.items ++ spec.count_text count) }
{
    let line = format!(in alloc; "races {count}\n")?;
    text.extend_from_slice(line.as_bytes())?;
    Ok(())
}

// The first line of a row.
fn push_site(
    alloc: Global,
    text: &mut Vec<u8>,
    p: &Program,
    files: &Reading,
    row: &Row,
) -> Result<(), NoMemory>
    ensures { OnOk result (text.new.items ≡ text.old.items ++ spec.site_text (name_at files.now) (program_of p.now) row.now) }
{
    text.extend_from_slice(b"race ")?;
    push_object(text, p, row.object)?;
    text.extend_from_slice(b" at ")?;
    push_place(alloc, text, files, row.pos)?;
    text.push(b'\n')?;
    Ok(())
}

// The lines of its two paths.
fn push_paths(text: &mut Vec<u8>, p: &Program, row: &Row) -> Result<(), NoMemory>
    ensures { OnOk result (text.new.items ≡ text.old.items ++ spec.paths_text (program_of p.now) row.now) }
{
    text.extend_from_slice(b"  path ")?;
    push_path(text, p, &row.path)?;
    text.extend_from_slice(b"\n  async ")?;
    push_path(text, p, &row.async_path)?;
    text.push(b'\n')?;
    Ok(())
}

#[tactic(auto, using(crate::proofs::TextLemmas::lines))]
fn push_warnings(
    alloc: Global,
    text: &mut Vec<u8>,
    files: &Reading,
    warnings: &[Warning],
) -> Result<(), NoMemory>
    ensures { OnOk result (text.new.items ≡ text.old.items ++ flat_map (spec.warning_text (name_at files.now)) (map warning_of warnings.now)) }
{
    for w in warnings {
        push_warning(alloc, text, files, w)?;
    }
    Ok(())
}

#[tactic(auto, using(crate::proofs::TextLemmas::lines))]
fn push_rows(
    alloc: Global,
    text: &mut Vec<u8>,
    p: &Program,
    files: &Reading,
    rows: &[Row],
) -> Result<(), NoMemory>
    ensures { OnOk result (text.new.items ≡ text.old.items ++ flat_map (spec.row_text (name_at files.now) (program_of p.now)) rows.now) }
{
    for row in rows {
        push_site(alloc, text, p, files, row)?;
        push_paths(text, p, row)?;
    }
    Ok(())
}

/// The text of a program's warnings and of the rows of its report; a file, object or body that has no name gives none.
pub fn print_report(
    alloc: Global,
    p: &Program,
    files: &Reading,
    rows: &[Row],
) -> Result<Vec<u8>, NoMemory>
    ensures { IfOk result (λ text. text.items ≡ spec.report_text (name_at files.now) (program_of p.now) rows.now) }
{
    let mut text = Vec::new(alloc);
    push_warnings(alloc, &mut text, files, p.warnings.as_slice())?;
    push_count(alloc, &mut text, rows.len())?;
    push_rows(alloc, &mut text, p, files, rows)?;
    Ok(text)
}
