//! What is said of a line.

use crate::source::{files_of, source_text};
use crate::texts::{push_fault, push_number, push_spellings, push_tokens};
use nesc_preproc::{Reading, expand};
use nesc_tokens::lex;
use nm_base::{Fault, Name, NoMemory, Token};
use std::alloc::Global;

fn lexed(alloc: Global, line: &[u8]) -> Result<Vec<Token>, Fault> {
    let text = source_text(alloc, line)?;
    if text.as_slice().len() > 1_000_000 {
        return Err(Fault::NoMemory);
    }
    lex(alloc, 0, text.as_slice())
}

fn expanded(alloc: Global, line: &[u8]) -> Result<Vec<Token>, Fault> {
    let mut files = files_of(alloc, line)?;
    let mut reading = Reading::new(alloc);
    expand(alloc, &mut files, &mut reading, &Name::new(alloc, b"a.nc")?)
}

/// The answer to a line.
pub fn answer(alloc: Global, line: &[u8]) -> Result<Vec<u8>, NoMemory> {
    let mut out = Vec::new(alloc);
    if let Some(text) = line.strip_prefix(b"lex ") {
        match lexed(alloc, text) {
            Ok(tokens) => push_tokens(alloc, &mut out, &tokens)?,
            Err(fault) => push_fault(alloc, &mut out, &fault)?,
        }
    } else if let Some(text) = line.strip_prefix(b"count ") {
        match expanded(alloc, text) {
            Ok(tokens) => push_number(alloc, &mut out, tokens.len())?,
            Err(fault) => push_fault(alloc, &mut out, &fault)?,
        }
    } else {
        match expanded(alloc, line) {
            Ok(tokens) => push_spellings(&mut out, &tokens)?,
            Err(fault) => push_fault(alloc, &mut out, &fault)?,
        }
    }
    out.push(b'\n')?;
    Ok(out)
}
