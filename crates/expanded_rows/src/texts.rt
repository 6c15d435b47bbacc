//! Tokens and refusals as texts.

use nm_base::{Fault, Kind, NoMemory, Pos, Token};
use std::alloc::Global;

fn letter(kind: Kind) -> u8 {
    match kind {
        Kind::Word => b'w',
        Kind::Number => b'n',
        Kind::Char => b'c',
        Kind::Text => b't',
        Kind::Sign => b's',
    }
}

/// Appends the spellings of tokens with a blank between them.
pub fn push_spellings(out: &mut Vec<u8>, tokens: &[Token]) -> Result<(), NoMemory> {
    for (at, token) in tokens.iter().enumerate() {
        if at > 0 {
            out.push(b' ')?;
        }
        out.extend_from_slice(token.text.as_bytes())?;
    }
    Ok(())
}

/// Appends tokens with their places: each as its line and column, `^` where it is the first of its line, the letter of its
/// kind, and its spelling.
pub fn push_tokens(alloc: Global, out: &mut Vec<u8>, tokens: &[Token]) -> Result<(), NoMemory> {
    for (at, token) in tokens.iter().enumerate() {
        if at > 0 {
            out.push(b' ')?;
        }
        let place = format!(in alloc; "{}:{}", token.pos.line, token.pos.col)?;
        out.extend_from_slice(place.as_bytes())?;
        if token.first {
            out.push(b'^')?;
        }
        out.push(letter(token.kind))?;
        out.extend_from_slice(token.text.as_bytes())?;
    }
    Ok(())
}

/// Appends a number.
pub fn push_number(alloc: Global, out: &mut Vec<u8>, number: usize) -> Result<(), NoMemory> {
    let text = format!(in alloc; "{number}")?;
    Ok(out.extend_from_slice(text.as_bytes())?)
}

/// Appends a refusal as its number and place, a limit as its name and number.
pub fn push_fault(alloc: Global, out: &mut Vec<u8>, fault: &Fault) -> Result<(), NoMemory> {
    let text = match fault {
        Fault::Refused(refusal) => {
            let Pos { file, line, col } = refusal.pos();
            format!(in alloc; "E{} {file}:{line}:{col}", refusal.number())?
        }
        Fault::Limit(limit) => format!(in alloc; "limit {} {}", limit.which.name(), limit.have)?,
        Fault::Missing(_) => format!(in alloc; "missing")?,
        _ => return Err(NoMemory),
    };
    Ok(out.extend_from_slice(text.as_bytes())?)
}
