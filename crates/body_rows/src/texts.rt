//! Statements as texts, with parentheses round what stands in one: `e` is an expression, `decl` a declaration.

use nesc_tree::{Expr, ForStart, Stmt};
use nm_base::NoMemory;

fn put(out: &mut Vec<u8>, text: &[u8]) -> Result<(), NoMemory> {
    out.extend_from_slice(text)?;
    Ok(())
}

fn maybe_expr(out: &mut Vec<u8>, found: &Option<Expr>) -> Result<(), NoMemory> {
    match found {
        None => put(out, b"- "),
        Some(_) => put(out, b"e "),
    }
}

fn start_text(out: &mut Vec<u8>, start: &ForStart) -> Result<(), NoMemory> {
    match start {
        ForStart::Nothing => put(out, b"- "),
        ForStart::Eval(_) => put(out, b"e "),
        ForStart::Vars(_) => put(out, b"decl "),
    }
}

// The statements with spaces between them.
#[cycle(texts)]
fn list_text(out: &mut Vec<u8>, list: &[Stmt], levels: u32) -> Result<(), NoMemory> {
    let mut is_first = true;
    for inner in list {
        if !is_first {
            put(out, b" ")?;
        }
        is_first = false;
        stmt_text(out, inner, levels)?;
    }
    Ok(())
}

// A statement with another one in it, behind this text.
#[cycle(texts)]
fn around(out: &mut Vec<u8>, before: &[u8], inner: &Stmt, levels: u32) -> Result<(), NoMemory> {
    put(out, before)?;
    stmt_text(out, inner, levels)?;
    put(out, b")")
}

#[cycle(texts)]
fn choice_text(out: &mut Vec<u8>, then: &Stmt, other: &Stmt, levels: u32) -> Result<(), NoMemory> {
    put(out, b"if(")?;
    stmt_text(out, then, levels)?;
    around(out, b" else ", other, levels)
}

/// The statement as a text, down to so many levels.
#[cycle(texts)]
pub fn stmt_text(out: &mut Vec<u8>, stmt: &Stmt, levels: u32) -> Result<(), NoMemory> {
    if levels == 0 {
        return put(out, b"..");
    }
    match stmt {
        Stmt::Block(list, _) => {
            put(out, b"{")?;
            list_text(out, list.as_slice(), levels - 1)?;
            put(out, b"}")
        }
        Stmt::Empty(_) => put(out, b";"),
        Stmt::Eval(_, _) => put(out, b"e;"),
        Stmt::Atomic(inner, _) => around(out, b"atomic(", inner.get(), levels - 1),
        Stmt::If(_, then, None, _) => around(out, b"if(", then.get(), levels - 1),
        Stmt::If(_, then, Some(other), _) => {
            choice_text(out, then.get(), other.get(), levels - 1)
        }
        Stmt::While(_, inner, _) => around(out, b"while(", inner.get(), levels - 1),
        Stmt::DoWhile(inner, _, _) => around(out, b"do(", inner.get(), levels - 1),
        Stmt::For {
            start,
            test,
            step,
            body,
            ..
        } => {
            put(out, b"for(")?;
            start_text(out, start)?;
            maybe_expr(out, test)?;
            maybe_expr(out, step)?;
            around(out, b"", body.get(), levels - 1)
        }
        Stmt::Switch(_, inner, _) => around(out, b"switch(", inner.get(), levels - 1),
        Stmt::Case(_, inner, _) => around(out, b"case(", inner.get(), levels - 1),
        Stmt::Default(inner, _) => around(out, b"default(", inner.get(), levels - 1),
        Stmt::Break(_) => put(out, b"break"),
        Stmt::Continue(_) => put(out, b"continue"),
        Stmt::Return(None, _) => put(out, b"return"),
        Stmt::Return(Some(_), _) => put(out, b"return e"),
        Stmt::Local(_, _) => put(out, b"decl"),
    }
}
