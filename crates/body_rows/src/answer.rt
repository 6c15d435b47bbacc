//! What is said of a line.

ghost use Rattle.std.specs.Prelude.{◌≡◌, [], codes, true, IfOk};
ghost use Rattle.nesc_tree.specs.Sorts.{declared};

use crate::texts::stmt_text;
use nesc_left_out::mark;
use nesc_parse_body::parse_body;
use nesc_tokens::lex;
use nesc_tree::TypeNames;
use nm_base::{Fault, Name, NoMemory, Pos, Refusal, Token};
use std::alloc::Global;

/// The number of the file that the lines stand in.
const FILE: u32 = 1;

/// A greater number than that of a tree's levels.
const LEVELS: u32 = 1_000;

/// The names of types that the lines may use.
pub fn known_types(alloc: Global) -> Result<TypeNames, NoMemory>
    ensures { IfOk result (λ names. names ≡ declared (codes "uint8_t") true (declared (codes "t") true [])) }
{
    let mut names = TypeNames::new(alloc);
    names.add(&Name::new(alloc, b"t")?)?;
    names.add(&Name::new(alloc, b"uint8_t")?)?;
    Ok(names)
}

fn number_text(alloc: Global, out: &mut Vec<u8>, number: u32) -> Result<(), NoMemory> {
    let text = format!(in alloc; "{number}")?;
    out.extend_from_slice(text.as_bytes())?;
    Ok(())
}

fn place_text(alloc: Global, out: &mut Vec<u8>, pos: Pos) -> Result<(), NoMemory> {
    out.extend_from_slice(b" ")?;
    number_text(alloc, out, pos.line)?;
    out.extend_from_slice(b":")?;
    number_text(alloc, out, pos.col)
}

fn refusal_text(alloc: Global, out: &mut Vec<u8>, refusal: &Refusal) -> Result<(), NoMemory> {
    match refusal {
        Refusal::Syntax(pos) => {
            out.extend_from_slice(b"E07")?;
            place_text(alloc, out, *pos)
        }
        Refusal::LeftOut(pos, word) => {
            out.extend_from_slice(b"E08")?;
            place_text(alloc, out, *pos)?;
            out.extend_from_slice(b" ")?;
            out.extend_from_slice(word.word().as_bytes())?;
            Ok(())
        }
        _ => {
            out.extend_from_slice(b"no token")?;
            Ok(())
        }
    }
}

fn fault_text(alloc: Global, out: &mut Vec<u8>, fault: &Fault) -> Result<(), NoMemory> {
    match fault {
        Fault::Refused(refusal) => refusal_text(alloc, out, refusal),
        Fault::Limit(limit) => {
            out.extend_from_slice(limit.which.name().as_bytes())?;
            out.extend_from_slice(b" ")?;
            number_text(alloc, out, limit.have)
        }
        _ => Err(NoMemory),
    }
}

// Where reading ended, if tokens are left.
fn end_text(
    alloc: Global,
    out: &mut Vec<u8>,
    tokens: &[Token],
    end: usize,
) -> Result<(), NoMemory> {
    match tokens.get(end) {
        Some(token) => {
            out.extend_from_slice(b" up to")?;
            place_text(alloc, out, token.pos)
        }
        None => Ok(()),
    }
}

fn parsed(
    alloc: Global,
    names: &mut TypeNames,
    tokens: &[Token],
    out: &mut Vec<u8>,
) -> Result<(), NoMemory> {
    match parse_body(alloc, tokens, 0, names, FILE) {
        Ok((tree, end)) => {
            stmt_text(out, &tree, LEVELS)?;
            end_text(alloc, out, tokens, end)
        }
        Err(fault) => fault_text(alloc, out, &fault),
    }
}

fn tokens_of(alloc: Global, text: &[u8]) -> Result<Vec<Token>, Fault> {
    if text.len() >= 1_000_000_000 {
        return Err(Fault::NoMemory);
    }
    let mut tokens = lex(alloc, FILE, text)?;
    mark(&mut tokens);
    Ok(tokens)
}

/// What stands in what in the statement of the line, or why it is none.
pub fn answer(alloc: Global, names: &mut TypeNames, line: &[u8]) -> Result<Vec<u8>, NoMemory> {
    let mut out = Vec::new(alloc);
    match tokens_of(alloc, line) {
        Ok(tokens) => parsed(alloc, names, tokens.as_slice(), &mut out)?,
        Err(fault) => fault_text(alloc, &mut out, &fault)?,
    }
    out.extend_from_slice(b"\n")?;
    Ok(out)
}
