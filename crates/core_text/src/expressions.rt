//! Wired expressions as texts, with parentheses round each node.

use crate::names::{binary_name, int_name, type_text, unary_name};
use crate::text::Text;
use nesc_core::{CoreExpr, Place};
use nm_base::{NoMemory, Pos};

fn put_place_of(out: &mut Text, at: Pos) -> Result<(), NoMemory> {
    out.put_place(at)?;
    out.put(b")")
}

#[cycle(trees)]
fn part(out: &mut Text, before: &[u8], e: &CoreExpr, levels: u32) -> Result<(), NoMemory> {
    if levels == 0 {
        return Ok(());
    }
    out.put(before)?;
    expr_text(out, e, levels - 1)
}

#[cycle(trees)]
fn two(
    out: &mut Text,
    before: &[u8],
    a: &CoreExpr,
    b: &CoreExpr,
    levels: u32,
) -> Result<(), NoMemory> {
    if levels == 0 {
        return Ok(());
    }
    part(out, before, a, levels - 1)?;
    part(out, b" ", b, levels - 1)?;
    out.put(b")")
}

#[cycle(trees)]
fn one(out: &mut Text, before: &[u8], a: &CoreExpr, levels: u32) -> Result<(), NoMemory> {
    if levels == 0 {
        return Ok(());
    }
    part(out, before, a, levels - 1)?;
    out.put(b")")
}

#[cycle(trees)]
fn moved(
    out: &mut Text,
    before: &[u8],
    a: &CoreExpr,
    b: &CoreExpr,
    size: u32,
    levels: u32,
) -> Result<(), NoMemory> {
    if levels == 0 {
        return Ok(());
    }
    part(out, before, a, levels - 1)?;
    part(out, b" ", b, levels - 1)?;
    out.put_number(b" ", i64::from(size))?;
    out.put(b")")
}

#[cycle(trees)]
fn changed(
    out: &mut Text,
    before: &[u8],
    p: &Place,
    a: &CoreExpr,
    at: Pos,
    levels: u32,
) -> Result<(), NoMemory> {
    if levels == 0 {
        return Ok(());
    }
    out.put(before)?;
    place_text(out, p, levels - 1)?;
    part(out, b" ", a, levels - 1)?;
    put_place_of(out, at)
}

/// Expressions, each behind a space, down to so many levels.
#[cycle(trees)]
pub(crate) fn all_texts(out: &mut Text, list: &[CoreExpr], levels: u32) -> Result<(), NoMemory> {
    if levels == 0 {
        return Ok(());
    }
    for e in list {
        part(out, b" ", e, levels - 1)?;
    }
    Ok(())
}

#[cycle(trees)]
fn call(
    out: &mut Text,
    body: u32,
    args: &[CoreExpr],
    at: Pos,
    levels: u32,
) -> Result<(), NoMemory> {
    if levels == 0 {
        return Ok(());
    }
    out.put_number(b"(call ", i64::from(body))?;
    all_texts(out, args, levels - 1)?;
    put_place_of(out, at)
}

#[cycle(trees)]
fn operator(out: &mut Text, e: &CoreExpr, levels: u32) -> Result<(), NoMemory> {
    if levels == 0 {
        return Ok(());
    }
    out.put(b"(")?;
    match e {
        CoreExpr::Un(o, t, a) => {
            out.put(unary_name(*o))?;
            out.put(b" ")?;
            out.put(int_name(*t))?;
            one(out, b" ", a, levels - 1)
        }
        CoreExpr::Bin(o, t, a, b) => {
            out.put(binary_name(*o))?;
            out.put(b" ")?;
            out.put(int_name(*t))?;
            two(out, b" ", a, b, levels - 1)
        }
        CoreExpr::Convert(t, a) => {
            out.put(b"to ")?;
            out.put(int_name(*t))?;
            one(out, b" ", a, levels - 1)
        }
        CoreExpr::Update(p, o, t, a, gives_old, at) => {
            out.put(if *gives_old { b"old " } else { b"new " })?;
            out.put(binary_name(*o))?;
            out.put(b" ")?;
            out.put(int_name(*t))?;
            changed(out, b" ", p, a, *at, levels - 1)
        }
        _ => Ok(()),
    }
}

// A form of one number.
fn numbered(out: &mut Text, before: &[u8], n: i64) -> Result<(), NoMemory> {
    out.put_number(before, n)?;
    out.put(b")")
}

/// An expression, down to so many levels.
#[cycle(trees)]
pub fn expr_text(out: &mut Text, e: &CoreExpr, levels: u32) -> Result<(), NoMemory> {
    if levels == 0 {
        return Ok(());
    }
    match e {
        CoreExpr::Const(t, n) => {
            out.put_number(b"", *n)?;
            out.put(b":")?;
            out.put(int_name(*t))
        }
        CoreExpr::Null => out.put(b"null"),
        CoreExpr::Read(p, at) => {
            out.put(b"(read ")?;
            place_text(out, p, levels - 1)?;
            put_place_of(out, *at)
        }
        CoreExpr::Addr(p) => {
            out.put(b"(addr ")?;
            place_text(out, p, levels - 1)?;
            out.put(b")")
        }
        CoreExpr::Offset(a, b, n) => moved(out, b"(offset ", a, b, *n, levels - 1),
        CoreExpr::Distance(a, b, n) => moved(out, b"(distance ", a, b, *n, levels - 1),
        CoreExpr::And(a, b) => two(out, b"(and_then ", a, b, levels - 1),
        CoreExpr::Or(a, b) => two(out, b"(or_else ", a, b, levels - 1),
        CoreExpr::Cond(a, b, c) => {
            part(out, b"(if ", a, levels - 1)?;
            two(out, b" ", b, c, levels - 1)
        }
        CoreExpr::Assign(p, a, at) => changed(out, b"(set ", p, a, *at, levels - 1),
        CoreExpr::Call(body, args, at) => call(out, *body, args.as_slice(), *at, levels - 1),
        CoreExpr::Post(k) => numbered(out, b"(post ", i64::from(*k)),
        CoreExpr::In(port) => numbered(out, b"(in ", i64::from(*port)),
        CoreExpr::Out(port, a) => {
            out.put_number(b"(out ", i64::from(*port))?;
            one(out, b" ", a, levels - 1)
        }
        CoreExpr::Comma(a, b) => two(out, b"(then ", a, b, levels - 1),
        CoreExpr::Un(_, _, _)
        | CoreExpr::Bin(_, _, _, _)
        | CoreExpr::Convert(_, _)
        | CoreExpr::Update(_, _, _, _, _, _) => operator(out, e, levels - 1),
    }
}

#[cycle(trees)]
fn place_text(out: &mut Text, p: &Place, levels: u32) -> Result<(), NoMemory> {
    if levels == 0 {
        return Ok(());
    }
    match p {
        Place::Object(k) => out.put_number(b"object", i64::from(*k)),
        Place::Local(k) => out.put_number(b"local", i64::from(*k)),
        Place::Deref(e, t) => {
            part(out, b"(behind ", e, levels - 1)?;
            out.put(b" ")?;
            type_text(out, t)?;
            out.put(b")")
        }
        Place::Index(base, e) => {
            place_text(out, base, levels - 1)?;
            part(out, b"[", e, levels - 1)?;
            out.put(b"]")
        }
        Place::Field(base, k) => {
            place_text(out, base, levels - 1)?;
            out.put_number(b".", i64::from(*k))
        }
    }
}
