//! Refusals as texts.

use nesc_preproc::Reading;
use nm_base::{Fault, NoMemory, Pos, Refusal};
use std::alloc::Global;

fn put(out: &mut Vec<u8>, text: &[u8]) -> Result<(), NoMemory> {
    out.extend_from_slice(text)?;
    Ok(())
}

/// Appends the name of a file, a line and a column.
pub fn put_place(
    alloc: Global,
    out: &mut Vec<u8>,
    reading: &Reading,
    pos: Pos,
) -> Result<(), NoMemory> {
    if let Some(name) = reading.name(pos.file) {
        put(out, name.as_bytes())?;
    }
    let place = format!(in alloc; ":{}:{}", pos.line, pos.col)?;
    put(out, place.as_bytes())
}

fn put_refusal(
    alloc: Global,
    out: &mut Vec<u8>,
    reading: &Reading,
    refusal: &Refusal,
) -> Result<(), NoMemory> {
    let number = refusal.number();
    let text = format!(in alloc; "refused E{}{} ", number / 10, number % 10)?;
    put(out, text.as_bytes())?;
    put_place(alloc, out, reading, refusal.pos())?;
    if let Refusal::LeftOut(_, left) = refusal {
        put(out, b" ")?;
        put(out, left.word().as_bytes())?;
    }
    Ok(())
}

/// Appends a refusal with its place, the file that is missing, or the limit that was passed.
pub fn put_fault(
    alloc: Global,
    out: &mut Vec<u8>,
    reading: &Reading,
    fault: &Fault,
) -> Result<(), NoMemory> {
    match fault {
        Fault::Refused(refusal) => put_refusal(alloc, out, reading, refusal),
        Fault::Missing(name) => {
            put(out, b"missing ")?;
            put(out, name.as_bytes())
        }
        Fault::Limit(limit) => {
            let text = format!(in alloc; "limit {} {}", limit.which.name(), limit.have)?;
            put(out, text.as_bytes())
        }
        _ => Err(NoMemory),
    }
}
