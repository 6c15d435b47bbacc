//! Wired statements as texts of one line, with braces round blocks.

use crate::expressions::{all_texts, expr_text};
use crate::text::Text;
use nesc_core::{CoreExpr, CoreStmt};
use nm_base::NoMemory;

// An expression, between two words.
fn between(
    out: &mut Text,
    before: &[u8],
    e: &CoreExpr,
    behind: &[u8],
    levels: u32,
) -> Result<(), NoMemory> {
    out.put(before)?;
    expr_text(out, e, levels)?;
    out.put(behind)
}

fn maybe(
    out: &mut Text,
    before: &[u8],
    e: &Option<CoreExpr>,
    behind: &[u8],
    levels: u32,
) -> Result<(), NoMemory> {
    match e {
        Some(e) => between(out, before, e, behind, levels),
        None => Ok(()),
    }
}

// Where in the statements of a switch a case begins.
fn case(out: &mut Text, value: Option<i64>, start: u32) -> Result<(), NoMemory> {
    match value {
        Some(value) => out.put_number(b"", value)?,
        None => out.put(b"else")?,
    }
    out.put_number(b" at ", i64::from(start))
}

fn all_cases(out: &mut Text, cases: &[(Option<i64>, u32)]) -> Result<(), NoMemory> {
    out.put(b"(")?;
    let mut before = b"".as_slice();
    for (value, start) in cases {
        out.put(before)?;
        case(out, *value, *start)?;
        before = b", ".as_slice();
    }
    out.put(b") ")
}

#[cycle(statements)]
fn block(out: &mut Text, list: &[CoreStmt], levels: u32) -> Result<(), NoMemory> {
    if levels == 0 {
        return Ok(());
    }
    out.put(b"{ ")?;
    for s in list {
        stmt_text(out, s, levels - 1)?;
        out.put(b" ")?;
    }
    out.put(b"}")
}

#[cycle(statements)]
fn branch(
    out: &mut Text,
    test: &CoreExpr,
    then: &CoreStmt,
    other: &CoreStmt,
    levels: u32,
) -> Result<(), NoMemory> {
    if levels == 0 {
        return Ok(());
    }
    between(out, b"if ", test, b" ", levels)?;
    stmt_text(out, then, levels - 1)?;
    out.put(b" else ")?;
    stmt_text(out, other, levels - 1)
}

#[cycle(statements)]
fn looped(
    out: &mut Text,
    first: bool,
    test: &CoreExpr,
    step: &Option<CoreExpr>,
    body: &CoreStmt,
    levels: u32,
) -> Result<(), NoMemory> {
    if levels == 0 {
        return Ok(());
    }
    let word = if first {
        b"while ".as_slice()
    } else {
        b"do_while ".as_slice()
    };
    between(out, word, test, b" ", levels)?;
    maybe(out, b"next ", step, b" ", levels)?;
    stmt_text(out, body, levels - 1)
}

#[cycle(statements)]
fn switch(
    out: &mut Text,
    e: &CoreExpr,
    cases: &[(Option<i64>, u32)],
    list: &[CoreStmt],
    levels: u32,
) -> Result<(), NoMemory> {
    if levels == 0 {
        return Ok(());
    }
    between(out, b"switch ", e, b" ", levels)?;
    all_cases(out, cases)?;
    block(out, list, levels - 1)
}

#[cycle(statements)]
fn inlined(
    out: &mut Text,
    args: &[CoreExpr],
    first: u32,
    body: &CoreStmt,
    levels: u32,
) -> Result<(), NoMemory> {
    if levels == 0 {
        return Ok(());
    }
    out.put_number(b"here local", i64::from(first))?;
    all_texts(out, args, levels)?;
    out.put(b" ")?;
    stmt_text(out, body, levels - 1)
}

fn returned(out: &mut Text, e: &Option<CoreExpr>, levels: u32) -> Result<(), NoMemory> {
    match e {
        Some(e) => between(out, b"return ", e, b";", levels),
        None => out.put(b"return;"),
    }
}

fn cleared(out: &mut Text, local: u32) -> Result<(), NoMemory> {
    out.put_number(b"clear local", i64::from(local))?;
    out.put(b";")
}

/// A statement, down to so many levels; a switch has where each case begins before its statements.
#[cycle(statements)]
pub fn stmt_text(out: &mut Text, s: &CoreStmt, levels: u32) -> Result<(), NoMemory> {
    if levels == 0 {
        return Ok(());
    }
    match s {
        CoreStmt::Eval(e) => between(out, b"", e, b";", levels),
        CoreStmt::Block(list) => block(out, list.as_slice(), levels - 1),
        CoreStmt::If(test, then, other) => branch(out, test, then, other, levels - 1),
        CoreStmt::Loop {
            first,
            test,
            step,
            body,
        } => looped(out, *first, test, step, body, levels - 1),
        CoreStmt::Switch(e, cases, list) => {
            switch(out, e, cases.as_slice(), list.as_slice(), levels - 1)
        }
        CoreStmt::Break => out.put(b"break;"),
        CoreStmt::Continue => out.put(b"continue;"),
        CoreStmt::Return(e) => returned(out, e, levels),
        CoreStmt::Atomic(part) => {
            out.put(b"atomic ")?;
            stmt_text(out, part, levels - 1)
        }
        CoreStmt::Clear(local) => cleared(out, *local),
        CoreStmt::Here {
            args,
            first,
            body,
            ..
        } => inlined(out, args.as_slice(), *first, body, levels - 1),
    }
}
