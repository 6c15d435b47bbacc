//! The files that a line stands for.

use nm_base::{List, MemFiles, Name, NoMemory};
use std::alloc::Global;

fn push_times(out: &mut Vec<u8>, text: &[u8], times: u32) -> Result<(), NoMemory> {
    for _ in 0..times {
        out.extend_from_slice(text)?;
    }
    Ok(())
}

// The parts of a text before and behind a byte.
fn split_at(text: &[u8], byte: u8) -> (&[u8], &[u8]) {
    match text.iter().position(|b| *b == byte) {
        Some(at) => match (
            text.get(..at),
            text.get(at..).and_then(|rest| rest.get(1..)),
        ) {
            (Some(front), Some(behind)) => (front, behind),
            _ => (text, b""),
        },
        None => (text, b""),
    }
}

fn number(text: &[u8]) -> u32 {
    let mut number: u32 = 0;
    for digit in text {
        number = number
            .saturating_mul(10)
            .saturating_add(u32::from(digit.saturating_sub(b'0')));
    }
    number
}

// Appends what a part between backquotes stands for.
fn push_repeated(out: &mut Vec<u8>, part: &[u8]) -> Result<(), NoMemory> {
    let (times, part) = split_at(part, b'|');
    let (open, part) = split_at(part, b'|');
    let (middle, close) = split_at(part, b'|');
    push_times(out, open, number(times))?;
    out.extend_from_slice(middle)?;
    push_times(out, close, number(times))
}

// The text that a part of a line stands for.
fn text_of(alloc: Global, part: &[u8]) -> Result<List<u8>, NoMemory> {
    let mut out = Vec::new(alloc);
    let mut repeated = Vec::new(alloc);
    let mut is_repeated = false;
    for byte in part {
        if *byte == b'`' {
            if is_repeated {
                push_repeated(&mut out, repeated.as_slice())?;
                repeated = Vec::new(alloc);
            }
            is_repeated = !is_repeated;
        } else if is_repeated {
            repeated.push(*byte)?;
        } else {
            out.push(if *byte == b'$' { b'\n' } else { *byte })?;
        }
    }
    Ok(List::new(out))
}

/// The source that a line stands for, without a header.
pub fn source_text(alloc: Global, line: &[u8]) -> Result<List<u8>, NoMemory> {
    text_of(alloc, line)
}

// The parts of a line before and behind `$$`.
fn parts(line: &[u8]) -> (&[u8], Option<&[u8]>) {
    for (at, pair) in line.windows(2).enumerate() {
        if pair == b"$$".as_slice() {
            if let (Some(front), Some(behind)) = (
                line.get(..at),
                line.get(at..).and_then(|rest| rest.get(2..)),
            ) {
                return (front, Some(behind));
            }
        }
    }
    (line, None)
}

/// The files that a line stands for: `a.nc`, and `h.h` where the line has a header.
pub fn files_of(alloc: Global, line: &[u8]) -> Result<MemFiles, NoMemory> {
    let (source, header) = parts(line);
    let mut files = Vec::new(alloc);
    files.push((Name::new(alloc, b"a.nc")?, text_of(alloc, source)?))?;
    if let Some(header) = header {
        files.push((Name::new(alloc, b"h.h")?, text_of(alloc, header)?))?;
    }
    Ok(MemFiles::new(files, Vec::new(alloc)))
}
