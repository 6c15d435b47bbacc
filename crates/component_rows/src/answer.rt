//! What is said of a file.

ghost use Rattle.std.specs.Prelude.{◌≡◌, [], codes, true, IfOk};
ghost use Rattle.nesc_tree.specs.Sorts.{declared};

use crate::parts::put_unit;
use crate::types::put;
use nesc_left_out::mark;
use nesc_parse_comp::{parse_component, parse_interface};
use nesc_tokens::lex;
use nesc_tree::{TypeNames, Unit};
use nm_base::{Fault, Name, NoMemory, Pos, Refusal, Token};
use std::alloc::Global;

/// The number of the files.
const FILE: u32 = 1;

/// The names of types that the files may use.
fn known_types(alloc: Global) -> Result<TypeNames, NoMemory>
    ensures { IfOk result (λ names. names ≡ declared (codes "error_t") true (declared (codes "uint32_t") true (declared (codes "uint16_t") true (declared (codes "uint8_t") true [])))) }
{
    let mut names = TypeNames::new(alloc);
    names.add(&Name::new(alloc, b"uint8_t")?)?;
    names.add(&Name::new(alloc, b"uint16_t")?)?;
    names.add(&Name::new(alloc, b"uint32_t")?)?;
    names.add(&Name::new(alloc, b"error_t")?)?;
    Ok(names)
}

fn number_text(alloc: Global, out: &mut Vec<u8>, number: u32) -> Result<(), NoMemory> {
    let text = format!(in alloc; "{number}")?;
    put(out, text.as_bytes())
}

fn place_text(alloc: Global, out: &mut Vec<u8>, code: &[u8], pos: Pos) -> Result<(), NoMemory> {
    put(out, code)?;
    put(out, b" ")?;
    number_text(alloc, out, pos.line)?;
    put(out, b":")?;
    number_text(alloc, out, pos.col)
}

fn refusal_text(alloc: Global, out: &mut Vec<u8>, refusal: &Refusal) -> Result<(), NoMemory> {
    match refusal {
        Refusal::Syntax(pos) => place_text(alloc, out, b"E07", *pos),
        Refusal::LeftOut(pos, word) => {
            place_text(alloc, out, b"E08", *pos)?;
            put(out, b" ")?;
            put(out, word.word().as_bytes())
        }
        Refusal::WrongName(pos) => place_text(alloc, out, b"E09", *pos),
        _ => put(out, b"no token"),
    }
}

fn fault_text(alloc: Global, out: &mut Vec<u8>, fault: &Fault) -> Result<(), NoMemory> {
    match fault {
        Fault::Refused(refusal) => refusal_text(alloc, out, refusal),
        Fault::Limit(limit) => {
            put(out, limit.which.name().as_bytes())?;
            put(out, b" ")?;
            number_text(alloc, out, limit.have)
        }
        _ => Err(NoMemory),
    }
}

// The name, where it is a type name.
fn type_text(
    alloc: Global,
    out: &mut Vec<u8>,
    names: &TypeNames,
    text: &[u8],
) -> Result<(), NoMemory> {
    if names.has(&Name::new(alloc, text)?) {
        put(out, b" ")?;
        put(out, text)?;
    }
    Ok(())
}

fn types_text(alloc: Global, out: &mut Vec<u8>, names: &TypeNames) -> Result<(), NoMemory> {
    put(out, b" |")?;
    type_text(alloc, out, names, b"error_t")?;
    type_text(alloc, out, names, b"t")?;
    type_text(alloc, out, names, b"u")?;
    type_text(alloc, out, names, b"v")
}

fn tokens_of(alloc: Global, text: &[u8]) -> Result<Vec<Token>, Fault> {
    if text.len() >= 1_000_000_000 {
        return Err(Fault::NoMemory);
    }
    let mut tokens = lex(alloc, FILE, text)?;
    mark(&mut tokens);
    Ok(tokens)
}

// What a file of this kind, `c` or `i`, holds.
fn parsed(
    alloc: Global,
    kind: u8,
    name: &Name,
    names: &mut TypeNames,
    tokens: &[Token],
) -> Result<Unit, Fault> {
    if kind == b'i' {
        parse_interface(alloc, tokens, name, names, FILE)
    } else {
        parse_component(alloc, tokens, name, names, FILE)
    }
}

fn put_parsed(
    alloc: Global,
    out: &mut Vec<u8>,
    kind: u8,
    name: &Name,
    tokens: &[Token],
) -> Result<(), NoMemory> {
    let mut names = known_types(alloc)?;
    match parsed(alloc, kind, name, &mut names, tokens) {
        Ok(unit) => put_unit(out, &unit)?,
        Err(fault) => fault_text(alloc, out, &fault)?,
    }
    types_text(alloc, out, &names)
}

// The kind and the name in a line `= c NAME`.
fn named(head: &[u8]) -> (u8, &[u8]) {
    match head {
        [_, _, kind, _, name @ ..] => (*kind, name),
        _ => (b'c', head),
    }
}

/// What the file of this head and text holds, behind its name.
pub fn answer(alloc: Global, head: &[u8], text: &[u8]) -> Result<Vec<u8>, NoMemory> {
    let (kind, name) = named(head);
    let mut out = Vec::new(alloc);
    put(&mut out, name)?;
    put(&mut out, b": ")?;
    match tokens_of(alloc, text) {
        Ok(tokens) => {
            let name = Name::new(alloc, name)?;
            put_parsed(alloc, &mut out, kind, &name, tokens.as_slice())?;
        }
        Err(fault) => fault_text(alloc, &mut out, &fault)?,
    }
    put(&mut out, b"\n")?;
    Ok(out)
}
