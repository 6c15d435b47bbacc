//! Trees as texts, with parentheses round each node that has parts.

use nesc_tree::{Base, Declarator, EnumItem, Expr, FieldGroup, InOp, PostOp, PreOp, TypeSpec};
use nm_base::{IntType, Name, NoMemory};

fn infix(op: InOp) -> &'static [u8] {
    match op {
        InOp::Mul => b"*",
        InOp::Div => b"/",
        InOp::Rem => b"%",
        InOp::Add => b"+",
        InOp::Sub => b"-",
        InOp::Shl => b"<<",
        InOp::Shr => b">>",
        InOp::Lt => b"<",
        InOp::Gt => b">",
        InOp::Le => b"<=",
        InOp::Ge => b">=",
        InOp::Eq => b"==",
        InOp::Ne => b"!=",
        InOp::And => b"&",
        InOp::Xor => b"^",
        InOp::Or => b"|",
        InOp::AndAnd => b"&&",
        InOp::OrOr => b"||",
    }
}

fn prefix(op: PreOp) -> &'static [u8] {
    match op {
        PreOp::Inc => b"++",
        PreOp::Dec => b"--",
        PreOp::Addr => b"&",
        PreOp::Deref => b"*",
        PreOp::Plus => b"+",
        PreOp::Neg => b"-",
        PreOp::Not => b"~",
        PreOp::IsZero => b"!",
    }
}

fn suffix(op: PostOp) -> &'static [u8] {
    match op {
        PostOp::Inc => b"++",
        PostOp::Dec => b"--",
    }
}

fn int_name(ty: IntType) -> &'static [u8] {
    match ty {
        IntType::I8 => b"i8",
        IntType::U8 => b"u8",
        IntType::I16 => b"i16",
        IntType::U16 => b"u16",
        IntType::I32 => b"i32",
        IntType::U32 => b"u32",
    }
}

fn put(out: &mut Vec<u8>, text: &[u8]) -> Result<(), NoMemory> {
    out.extend_from_slice(text)?;
    Ok(())
}

fn put_name(out: &mut Vec<u8>, before: &[u8], name: &Name) -> Result<(), NoMemory> {
    put(out, before)?;
    put(out, name.as_bytes())
}

fn put_stars(out: &mut Vec<u8>, stars: u8) -> Result<(), NoMemory> {
    for _ in 0..stars {
        put(out, b"*")?;
    }
    Ok(())
}

// A node with one part, between these texts.
#[cycle(trees)]
fn one(
    out: &mut Vec<u8>,
    before: &[u8],
    a: &Expr,
    behind: &[u8],
    levels: u32,
) -> Result<(), NoMemory> {
    if levels == 0 {
        return Ok(());
    }
    put(out, before)?;
    expr_text(out, a, levels - 1)?;
    put(out, behind)
}

// A node with two parts, and a text between them.
#[cycle(trees)]
fn two(
    out: &mut Vec<u8>,
    a: &Expr,
    between: &[u8],
    b: &Expr,
    behind: &[u8],
    levels: u32,
) -> Result<(), NoMemory> {
    if levels == 0 {
        return Ok(());
    }
    put(out, b"(")?;
    expr_text(out, a, levels - 1)?;
    put(out, b" ")?;
    put(out, between)?;
    put(out, b" ")?;
    expr_text(out, b, levels - 1)?;
    put(out, behind)
}

#[cycle(trees)]
fn assignment(
    out: &mut Vec<u8>,
    a: &Expr,
    op: Option<InOp>,
    b: &Expr,
    levels: u32,
) -> Result<(), NoMemory> {
    if levels == 0 {
        return Ok(());
    }
    one(out, b"(", a, b" ", levels - 1)?;
    if let Some(op) = op {
        put(out, infix(op))?;
    }
    one(out, b"= ", b, b")", levels - 1)
}

#[cycle(trees)]
fn list(
    out: &mut Vec<u8>,
    before: &[u8],
    exprs: &[Expr],
    behind: &[u8],
    levels: u32,
) -> Result<(), NoMemory> {
    if levels == 0 {
        return Ok(());
    }
    put(out, before)?;
    for a in exprs {
        one(out, b" ", a, b"", levels - 1)?;
    }
    put(out, behind)
}

#[cycle(trees)]
fn call(out: &mut Vec<u8>, expr: &Expr, levels: u32) -> Result<(), NoMemory> {
    if levels == 0 {
        return Ok(());
    }
    match expr {
        Expr::CallFn(f, args, _) => {
            one(out, b"(", f.get(), b" (", levels - 1)?;
            list(out, b"", args.as_slice(), b" ))", levels - 1)
        }
        Expr::CallItem {
            signal,
            element,
            item,
            param,
            args,
            ..
        } => {
            put(out, if *signal { b"(signal " } else { b"(call " })?;
            put_name(out, b"", element)?;
            put_name(out, b".", item)?;
            if let Some(param) = param {
                one(out, b" [", param.get(), b"]", levels - 1)?;
            }
            list(out, b" (", args.as_slice(), b" ))", levels - 1)
        }
        _ => Ok(()),
    }
}

#[cycle(trees)]
fn of_type(
    out: &mut Vec<u8>,
    before: &[u8],
    ty: &TypeSpec,
    behind: &[u8],
    levels: u32,
) -> Result<(), NoMemory> {
    if levels == 0 {
        return Ok(());
    }
    put(out, before)?;
    type_text(out, ty, levels - 1)?;
    put(out, behind)
}

#[cycle(trees)]
fn other(out: &mut Vec<u8>, expr: &Expr, levels: u32) -> Result<(), NoMemory> {
    if levels == 0 {
        return Ok(());
    }
    match expr {
        Expr::Cond(a, b, c, _) => {
            two(out, a.get(), b"?", b.get(), b"", levels - 1)?;
            one(out, b" : ", c.get(), b")", levels - 1)
        }
        Expr::Cast(ty, a, _) => {
            of_type(out, b"((", ty, b") ", levels - 1)?;
            one(out, b"", a.get(), b")", levels - 1)
        }
        Expr::SizeOfType(ty, _) => of_type(out, b"(sizeof (", ty, b"))", levels - 1),
        Expr::Member(a, name, _) => {
            one(out, b"(", a.get(), b" ", levels - 1)?;
            put_name(out, b". ", name)?;
            put(out, b")")
        }
        Expr::Arrow(a, name, _) => {
            one(out, b"(", a.get(), b" ", levels - 1)?;
            put_name(out, b"-> ", name)?;
            put(out, b")")
        }
        _ => call(out, expr, levels - 1),
    }
}

/// The tree of an expression, down to so many levels.
#[cycle(trees)]
pub fn expr_text(out: &mut Vec<u8>, expr: &Expr, levels: u32) -> Result<(), NoMemory> {
    if levels == 0 {
        return Ok(());
    }
    match expr {
        Expr::Name(name, _) => put_name(out, b"", name),
        Expr::Number(name, _) => put_name(out, b"", name),
        Expr::Char(name, _) => put_name(out, b"", name),
        Expr::Null(_) => put(out, b"NULL"),
        Expr::Unique(text, _) => put_name(out, b"unique ", text),
        Expr::UniqueCount(text, _) => put_name(out, b"uniqueCount ", text),
        Expr::Post(task, _) => put_name(out, b"post ", task),
        Expr::Unary(op, a, _) => {
            put(out, b"(")?;
            put(out, prefix(*op))?;
            one(out, b" ", a.get(), b")", levels - 1)
        }
        Expr::Postfix(op, a, _) => {
            one(out, b"(", a.get(), b" ", levels - 1)?;
            put(out, suffix(*op))?;
            put(out, b")")
        }
        Expr::Binary(op, a, b, _) => two(out, a.get(), infix(*op), b.get(), b")", levels - 1),
        Expr::Assign(op, a, b, _) => assignment(out, a.get(), *op, b.get(), levels - 1),
        Expr::Comma(a, b, _) => two(out, a.get(), b",", b.get(), b")", levels - 1),
        Expr::Index(a, b, _) => two(out, a.get(), b"[", b.get(), b" ])", levels - 1),
        Expr::SizeOfExpr(a, _) => one(out, b"(sizeof ", a.get(), b")", levels - 1),
        Expr::PortRead(a, _) => one(out, b"(port_read ", a.get(), b")", levels - 1),
        Expr::PortWrite(a, b, _) => two(out, a.get(), b":=", b.get(), b")", levels - 1),
        _ => other(out, expr, levels - 1),
    }
}

#[cycle(trees)]
fn declarator(out: &mut Vec<u8>, field: &Declarator, levels: u32) -> Result<(), NoMemory> {
    if levels == 0 {
        return Ok(());
    }
    put(out, b" ")?;
    put_stars(out, field.stars)?;
    put(out, field.name.as_bytes())?;
    list(out, b"[", field.dims.as_slice(), b"]", levels - 1)
}

#[cycle(trees)]
fn group(out: &mut Vec<u8>, group: &FieldGroup, levels: u32) -> Result<(), NoMemory> {
    if levels == 0 {
        return Ok(());
    }
    type_text(out, &group.ty, levels - 1)?;
    for field in group.fields.as_slice() {
        declarator(out, field, levels - 1)?;
    }
    put(out, b";")
}

#[cycle(trees)]
fn item(out: &mut Vec<u8>, item: &EnumItem, levels: u32) -> Result<(), NoMemory> {
    if levels == 0 {
        return Ok(());
    }
    put_name(out, b" ", &item.name)?;
    match &item.value {
        Some(value) => one(out, b"=", value, b"", levels - 1),
        None => Ok(()),
    }
}

#[cycle(trees)]
fn base_text(out: &mut Vec<u8>, base: &Base, levels: u32) -> Result<(), NoMemory> {
    if levels == 0 {
        return Ok(());
    }
    match base {
        Base::Void => put(out, b"void"),
        Base::Int(ty) => put(out, int_name(*ty)),
        Base::Named(name) => put(out, name.as_bytes()),
        Base::Struct(tag, groups) => {
            put(out, b"struct")?;
            if let Some(tag) = tag {
                put_name(out, b" ", tag)?;
            }
            if let Some(groups) = groups {
                put(out, b" {")?;
                for fields in groups.as_slice() {
                    group(out, fields, levels - 1)?;
                }
                put(out, b"}")?;
            }
            Ok(())
        }
        Base::Enum(tag, items) => {
            put(out, b"enum")?;
            if let Some(tag) = tag {
                put_name(out, b" ", tag)?;
            }
            if let Some(items) = items {
                put(out, b" {")?;
                for constant in items.as_slice() {
                    item(out, constant, levels - 1)?;
                }
                put(out, b"}")?;
            }
            Ok(())
        }
    }
}

/// The tree of a type, down to so many levels.
#[cycle(trees)]
pub fn type_text(out: &mut Vec<u8>, ty: &TypeSpec, levels: u32) -> Result<(), NoMemory> {
    if levels == 0 {
        return Ok(());
    }
    if ty.is_const {
        put(out, b"const ")?;
    }
    base_text(out, &ty.base, levels - 1)?;
    if ty.stars > 0 {
        put(out, b" ")?;
    }
    put_stars(out, ty.stars)
}
