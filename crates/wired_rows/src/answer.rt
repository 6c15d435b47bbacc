//! What is said of a line.

use crate::context::{FILE, LOCALS, start};
use core_text::{Places, Text, expr_text, type_text};
use elab_exprs::{Told, constant, type_of, value};
use elab_meaning::{Typed, Work};
use nesc_parse_c::{parse_expr, parse_type};
use nesc_tokens::lex;
use nesc_tree::{Expr, TypeNames, TypeSpec};
use nesc_types::{Constant, pos_of};
use nm_base::{Fault, NoMemory, Pos, Refusal, Token};
use std::alloc::Global;

/// A greater number than that of a tree's levels.
const LEVELS: u32 = 1_000;

fn refusal_at(refusal: &Refusal) -> Option<Pos> {
    match refusal {
        Refusal::Syntax(at)
        | Refusal::BadType(at)
        | Refusal::NotConstant(at)
        | Refusal::UnknownName(at)
        | Refusal::DuplicateName(at)
        | Refusal::AddressOfLocal(at)
        | Refusal::ArgumentMismatch(at)
        | Refusal::NotAssignable(at) => Some(*at),
        _ => None,
    }
}

fn fault_text(out: &mut Text, fault: &Fault) -> Result<(), NoMemory> {
    match fault {
        Fault::Refused(refusal) => {
            out.put_number(b"E", i64::from(refusal.number()))?;
            match refusal_at(refusal) {
                Some(at) => out.put_number(b" ", i64::from(at.col)),
                None => Ok(()),
            }
        }
        _ => Err(NoMemory),
    }
}

// The types of fresh locals, the objects taken, and the structs that ended.
fn state_text(out: &mut Text, work: &Work) -> Result<(), NoMemory> {
    for (k, t) in work.locals.iter().enumerate() {
        if k >= LOCALS {
            out.put(b" made ")?;
            type_text(out, t)?;
        }
    }
    for k in &work.taken {
        out.put_number(b" taken ", i64::from(*k))?;
    }
    Ok(())
}

fn value_text(out: &mut Text, found: Result<Typed, Fault>, work: &Work) -> Result<(), NoMemory> {
    match found {
        Ok(v) => {
            type_text(out, &v.ty)?;
            out.put(b" ")?;
            expr_text(out, &v.expr, LEVELS)?;
            state_text(out, work)
        }
        Err(fault) => fault_text(out, &fault),
    }
}

fn wired(alloc: Global, told: &Told, tree: &Expr, out: &mut Text) -> Result<(), NoMemory> {
    match start(alloc) {
        Ok(mut work) => {
            let found = value(alloc, told, &mut work, tree);
            value_text(out, found, &work)
        }
        Err(_) => Err(NoMemory),
    }
}

fn constant_text(out: &mut Text, found: Result<Constant, Fault>) -> Result<(), NoMemory> {
    match found {
        Ok((t, n)) => {
            type_text(out, &nesc_core::CoreType::Int(t))?;
            out.put_number(b" ", n)
        }
        Err(fault) => fault_text(out, &fault),
    }
}

fn wired_constant(alloc: Global, told: &Told, tree: &Expr, out: &mut Text) -> Result<(), NoMemory> {
    match start(alloc) {
        Ok(mut work) => {
            let found = constant(alloc, told, &mut work, tree);
            constant_text(out, found)
        }
        Err(_) => Err(NoMemory),
    }
}

fn wired_type(
    alloc: Global,
    told: &Told,
    tree: &TypeSpec,
    at: Pos,
    out: &mut Text,
) -> Result<(), NoMemory> {
    match start(alloc) {
        Ok(mut work) => match type_of(alloc, told, &mut work, tree, at) {
            Ok(t) => type_text(out, &t),
            Err(fault) => fault_text(out, &fault),
        },
        Err(_) => Err(NoMemory),
    }
}

// The end of what was read must be that of the line.
fn whole<T>(read: Result<(T, usize), Fault>, tokens: &[Token]) -> Result<Option<T>, Fault>
where
    T: Drop,
{
    let (tree, end) = read?;
    if end < tokens.len() {
        return Ok(None);
    }
    Ok(Some(tree))
}

fn expr_answer(
    alloc: Global,
    names: &TypeNames,
    told: &Told,
    tokens: &[Token],
    is_constant: bool,
    out: &mut Text,
) -> Result<(), NoMemory> {
    match whole(parse_expr(alloc, tokens, 0, names, FILE), tokens) {
        Ok(Some(tree)) => {
            if is_constant {
                wired_constant(alloc, told, &tree, out)
            } else {
                wired(alloc, told, &tree, out)
            }
        }
        Ok(None) => out.put(b"not a whole line"),
        Err(fault) => fault_text(out, &fault),
    }
}

fn type_answer(
    alloc: Global,
    names: &TypeNames,
    told: &Told,
    tokens: &[Token],
    out: &mut Text,
) -> Result<(), NoMemory> {
    match whole(parse_type(alloc, tokens, 0, names, FILE), tokens) {
        Ok(Some(tree)) => {
            let at = Pos {
                file: FILE,
                line: 1,
                col: 1,
            };
            wired_type(alloc, told, &tree, at, out)
        }
        Ok(None) => out.put(b"not a whole line"),
        Err(fault) => fault_text(out, &fault),
    }
}

fn tokens_of(alloc: Global, text: &[u8]) -> Result<Vec<Token>, Fault> {
    if text.len() >= 1_000_000_000 {
        return Err(Fault::NoMemory);
    }
    lex(alloc, FILE, text)
}

/// What the line is wired to, or where it is refused and why.
pub fn answer(
    alloc: Global,
    names: &TypeNames,
    told: &Told,
    line: &[u8],
) -> Result<Vec<u8>, NoMemory> {
    let mut out = Text::new(alloc, Places::Column);
    let (kind, text) = match line.strip_prefix(b"type ") {
        Some(text) => (b't', text),
        None => match line.strip_prefix(b"constant ") {
            Some(text) => (b'c', text),
            None => (b'e', line),
        },
    };
    match tokens_of(alloc, text) {
        Ok(tokens) => {
            let tokens = tokens.as_slice();
            if kind == b't' {
                type_answer(alloc, names, told, tokens, &mut out)?;
            } else {
                expr_answer(alloc, names, told, tokens, kind == b'c', &mut out)?;
            }
        }
        Err(fault) => fault_text(&mut out, &fault)?,
    }
    out.put(b"\n")?;
    Ok(out.bytes)
}
