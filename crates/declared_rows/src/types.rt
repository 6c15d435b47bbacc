//! Types as texts: a dimension is `[]`, the value of a constant `=`.

use nesc_tree::{Base, Declarator, EnumItem, Expr, FieldGroup, TypeSpec};
use nm_base::{IntType, Name, NoMemory};

pub fn put(out: &mut Vec<u8>, text: &[u8]) -> Result<(), NoMemory> {
    out.extend_from_slice(text)?;
    Ok(())
}

pub fn put_name(out: &mut Vec<u8>, before: &[u8], name: &Name) -> Result<(), NoMemory> {
    put(out, before)?;
    put(out, name.as_bytes())
}

fn int_name(ty: IntType) -> &'static [u8] {
    match ty {
        IntType::I8 => b"char",
        IntType::U8 => b"uchar",
        IntType::I16 => b"int",
        IntType::U16 => b"uint",
        IntType::I32 => b"long",
        IntType::U32 => b"ulong",
    }
}

pub fn put_stars(out: &mut Vec<u8>, stars: u8) -> Result<(), NoMemory> {
    for _ in 0..stars {
        put(out, b"*")?;
    }
    Ok(())
}

pub fn put_dims(out: &mut Vec<u8>, dims: &[Expr]) -> Result<(), NoMemory> {
    for _ in dims {
        put(out, b"[]")?;
    }
    Ok(())
}

pub fn put_declarator(out: &mut Vec<u8>, declarator: &Declarator) -> Result<(), NoMemory> {
    put_stars(out, declarator.stars)?;
    put_name(out, b"", &declarator.name)?;
    put_dims(out, declarator.dims.as_slice())
}

fn put_tag(out: &mut Vec<u8>, tag: &Option<Name>) -> Result<(), NoMemory> {
    match tag {
        None => Ok(()),
        Some(name) => put_name(out, b" ", name),
    }
}

// The names of fields that share a type, with commas between them.
fn put_fields(out: &mut Vec<u8>, fields: &[Declarator]) -> Result<(), NoMemory> {
    let mut is_first = true;
    for field in fields {
        if !is_first {
            put(out, b", ")?;
        }
        is_first = false;
        put_declarator(out, field)?;
    }
    Ok(())
}

fn put_items(out: &mut Vec<u8>, items: &[EnumItem]) -> Result<(), NoMemory> {
    put(out, b" {")?;
    for item in items {
        put_name(out, b" ", &item.name)?;
        if item.value.is_some() {
            put(out, b"=")?;
        }
    }
    put(out, b" }")
}

#[cycle(types)]
fn put_groups(out: &mut Vec<u8>, groups: &[FieldGroup], levels: u32) -> Result<(), NoMemory> {
    put(out, b" { ")?;
    for group in groups {
        put_type(out, &group.ty, levels)?;
        put(out, b" ")?;
        put_fields(out, group.fields.as_slice())?;
        put(out, b"; ")?;
    }
    put(out, b"}")
}

#[cycle(types)]
fn put_base(out: &mut Vec<u8>, base: &Base, levels: u32) -> Result<(), NoMemory> {
    match base {
        Base::Void => put(out, b"void"),
        Base::Int(ty) => put(out, int_name(*ty)),
        Base::Named(name) => put_name(out, b"", name),
        Base::Struct(tag, groups) => {
            put(out, b"struct")?;
            put_tag(out, tag)?;
            match groups {
                None => Ok(()),
                Some(groups) => put_groups(out, groups.as_slice(), levels),
            }
        }
        Base::Enum(tag, items) => {
            put(out, b"enum")?;
            put_tag(out, tag)?;
            match items {
                None => Ok(()),
                Some(items) => put_items(out, items.as_slice()),
            }
        }
    }
}

/// The type as a text, down to so many levels.
#[cycle(types)]
pub fn put_type(out: &mut Vec<u8>, ty: &TypeSpec, levels: u32) -> Result<(), NoMemory> {
    if levels == 0 {
        return put(out, b"..");
    }
    if ty.is_const {
        put(out, b"const ")?;
    }
    put_base(out, &ty.base, levels - 1)?;
    put_stars(out, ty.stars)?;
    put_dims(out, ty.dims.as_slice())
}
