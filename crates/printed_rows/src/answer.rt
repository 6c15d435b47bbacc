//! What a file is printed as, and whether that reads back.

use nesc_left_out::mark;
use nesc_parse_comp::{parse_component, parse_interface};
use nesc_parse_list::parse_decls;
use nesc_print::print;
use nesc_tokens::lex;
use nesc_tree::{Part, TypeNames, Unit};
use nm_base::{Fault, Name, NoMemory, Token};
use std::alloc::Global;

/// The number of the files.
const FILE: u32 = 1;

/// A text is shorter.
const MAX_TEXT: usize = 1_000_000_000;

/// The names of types that the files may use.
fn known_types(alloc: Global) -> Result<TypeNames, NoMemory> {
    let mut names = TypeNames::new(alloc);
    names.add(&Name::new(alloc, b"uint8_t")?)?;
    names.add(&Name::new(alloc, b"uint16_t")?)?;
    names.add(&Name::new(alloc, b"uint32_t")?)?;
    names.add(&Name::new(alloc, b"error_t")?)?;
    Ok(names)
}

fn tokens_of(alloc: Global, text: &[u8]) -> Result<Vec<Token>, Fault> {
    if text.len() >= MAX_TEXT {
        return Err(Fault::NoMemory);
    }
    let mut tokens = lex(alloc, FILE, text)?;
    mark(&mut tokens);
    Ok(tokens)
}

fn header(alloc: Global, names: &mut TypeNames, tokens: &[Token]) -> Result<Unit, Fault> {
    let (decls, _) = parse_decls(alloc, tokens, 0, names, FILE)?;
    Ok(Unit {
        decls,
        part: Part::Header,
    })
}

/// What a file of this kind holds: a component, an interface, or the declarations of a header.
fn parsed(alloc: Global, kind: u8, name: &Name, text: &[u8]) -> Result<Unit, Fault> {
    let tokens = tokens_of(alloc, text)?;
    let mut names = known_types(alloc)?;
    match kind {
        b'c' => parse_component(alloc, tokens.as_slice(), name, &mut names, FILE),
        b'i' => parse_interface(alloc, tokens.as_slice(), name, &mut names, FILE),
        _ => header(alloc, &mut names, tokens.as_slice()),
    }
}

fn print_unit(alloc: Global, unit: &Unit) -> Result<Vec<u8>, Fault> {
    Ok(print(alloc, unit)?)
}

// The file as it is printed.
fn printed(alloc: Global, kind: u8, name: &Name, text: &[u8]) -> Result<Vec<u8>, Fault> {
    let unit = parsed(alloc, kind, name, text)?;
    print_unit(alloc, &unit)
}

// The kind and the name in a line `= c NAME`.
fn named(head: &[u8]) -> (u8, &[u8]) {
    match head {
        [_, _, kind, _, name @ ..] => (*kind, name),
        _ => (b'c', head),
    }
}

/// The file of this head and text as it is printed, and a line that says whether that is parsed again as a tree with the same words, and so
/// as the same tree up to places.
pub fn answer(alloc: Global, head: &[u8], text: &[u8]) -> Result<Vec<u8>, Fault> {
    let (kind, name) = named(head);
    let name = Name::new(alloc, name)?;
    let mut out = printed(alloc, kind, &name, text)?;
    let again = printed(alloc, kind, &name, out.as_slice())?;
    let is_same = again.as_slice() == out.as_slice();
    out.extend_from_slice(if is_same { b"same\n" } else { b"another\n" })?;
    Ok(out)
}
