//! What is said of a line.

ghost use Rattle.std.specs.Prelude.{◌≡◌, [], codes, true, IfOk};
ghost use Rattle.nesc_tree.specs.Sorts.{declared};

use crate::declarations::put_decl;
use crate::types::put;
use nesc_left_out::mark;
use nesc_parse_list::parse_decls_of;
use nesc_tokens::lex;
use nesc_tree::{Decl, Site, TypeNames};
use nm_base::{Fault, Name, NoMemory, Pos, Refusal, Token};
use std::alloc::Global;

/// The number of the file that the lines stand in.
const FILE: u32 = 1;

/// The names of types that the lines may use.
fn known_types(alloc: Global) -> Result<TypeNames, NoMemory>
    ensures { IfOk result (λ names. names ≡ declared (codes "s") true (declared (codes "t") true [])) }
{
    let mut names = TypeNames::new(alloc);
    names.add(&Name::new(alloc, b"t")?)?;
    names.add(&Name::new(alloc, b"s")?)?;
    Ok(names)
}

fn number_text(alloc: Global, out: &mut Vec<u8>, number: u32) -> Result<(), NoMemory> {
    let text = format!(in alloc; "{number}")?;
    put(out, text.as_bytes())
}

fn place_text(alloc: Global, out: &mut Vec<u8>, pos: Pos) -> Result<(), NoMemory> {
    put(out, b" ")?;
    number_text(alloc, out, pos.line)?;
    put(out, b":")?;
    number_text(alloc, out, pos.col)
}

fn refusal_text(alloc: Global, out: &mut Vec<u8>, refusal: &Refusal) -> Result<(), NoMemory> {
    match refusal {
        Refusal::Syntax(pos) => {
            put(out, b"E07")?;
            place_text(alloc, out, *pos)
        }
        Refusal::LeftOut(pos, word) => {
            put(out, b"E08")?;
            place_text(alloc, out, *pos)?;
            put(out, b" ")?;
            put(out, word.word().as_bytes())
        }
        _ => put(out, b"no token"),
    }
}

fn fault_text(alloc: Global, out: &mut Vec<u8>, fault: &Fault) -> Result<(), NoMemory> {
    match fault {
        Fault::Refused(refusal) => refusal_text(alloc, out, refusal),
        Fault::Limit(limit) => {
            put(out, limit.which.name().as_bytes())?;
            put(out, b" ")?;
            number_text(alloc, out, limit.have)
        }
        _ => Err(NoMemory),
    }
}

// Where reading ended, if tokens are left.
fn end_text(
    alloc: Global,
    out: &mut Vec<u8>,
    tokens: &[Token],
    end: usize,
) -> Result<(), NoMemory> {
    match tokens.get(end) {
        Some(token) => {
            put(out, b" up to")?;
            place_text(alloc, out, token.pos)
        }
        None => Ok(()),
    }
}

fn decls_text(out: &mut Vec<u8>, decls: &[Decl]) -> Result<(), NoMemory> {
    let mut is_first = true;
    for decl in decls {
        if !is_first {
            put(out, b" ")?;
        }
        is_first = false;
        put_decl(out, decl)?;
    }
    Ok(())
}

// The name, where it is a type name.
fn type_text(
    alloc: Global,
    out: &mut Vec<u8>,
    names: &TypeNames,
    text: &[u8],
) -> Result<(), NoMemory> {
    if names.has(&Name::new(alloc, text)?) {
        put(out, b" ")?;
        put(out, text)?;
    }
    Ok(())
}

fn types_text(alloc: Global, out: &mut Vec<u8>, names: &TypeNames) -> Result<(), NoMemory> {
    put(out, b" |")?;
    type_text(alloc, out, names, b"s")?;
    type_text(alloc, out, names, b"t")?;
    type_text(alloc, out, names, b"u")?;
    type_text(alloc, out, names, b"v")
}

fn parsed(alloc: Global, tokens: &[Token], site: Site, out: &mut Vec<u8>) -> Result<(), NoMemory> {
    let mut names = known_types(alloc)?;
    match parse_decls_of(alloc, tokens, 0, &mut names, FILE, site) {
        Ok((decls, end)) => {
            decls_text(out, decls.as_slice())?;
            end_text(alloc, out, tokens, end)?;
        }
        Err(fault) => fault_text(alloc, out, &fault)?,
    }
    types_text(alloc, out, &names)
}

fn tokens_of(alloc: Global, text: &[u8]) -> Result<Vec<Token>, Fault> {
    if text.len() >= 1_000_000_000 {
        return Err(Fault::NoMemory);
    }
    let mut tokens = lex(alloc, FILE, text)?;
    mark(&mut tokens);
    Ok(tokens)
}

// Which declarations stand on the line, by its first two bytes, and the line behind these.
fn site_of(line: &[u8]) -> (Site, &[u8]) {
    match line {
        [b'h', b' ', rest @ ..] => (Site::Header, rest),
        [b'm', b' ', rest @ ..] => (Site::Module, rest),
        _ => (Site::Header, line),
    }
}

/// The declarations of the line and the type names behind them, or why there are none.
pub fn answer(alloc: Global, line: &[u8]) -> Result<Vec<u8>, NoMemory> {
    let (site, text) = site_of(line);
    let mut out = Vec::new(alloc);
    match tokens_of(alloc, text) {
        Ok(tokens) => parsed(alloc, tokens.as_slice(), site, &mut out)?,
        Err(fault) => fault_text(alloc, &mut out, &fault)?,
    }
    put(&mut out, b"\n")?;
    Ok(out)
}
