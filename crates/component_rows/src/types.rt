//! Types as texts: a dimension is `[]`, what a definition holds `{}`.

use nesc_tree::{Base, Param, TypeSpec};
use nm_base::{IntType, Name, NoMemory};

pub fn put(out: &mut Vec<u8>, text: &[u8]) -> Result<(), NoMemory> {
    out.extend_from_slice(text)?;
    Ok(())
}

pub fn put_name(out: &mut Vec<u8>, before: &[u8], name: &Name) -> Result<(), NoMemory> {
    put(out, before)?;
    put(out, name.as_bytes())
}

fn int_name(ty: IntType) -> &'static [u8] {
    match ty {
        IntType::I8 => b"char",
        IntType::U8 => b"uchar",
        IntType::I16 => b"int",
        IntType::U16 => b"uint",
        IntType::I32 => b"long",
        IntType::U32 => b"ulong",
    }
}

fn put_tag(out: &mut Vec<u8>, tag: &Option<Name>) -> Result<(), NoMemory> {
    match tag {
        None => Ok(()),
        Some(name) => put_name(out, b" ", name),
    }
}

fn put_defined(out: &mut Vec<u8>, is_defined: bool) -> Result<(), NoMemory> {
    if is_defined { put(out, b" {}") } else { Ok(()) }
}

fn put_base(out: &mut Vec<u8>, base: &Base) -> Result<(), NoMemory> {
    match base {
        Base::Void => put(out, b"void"),
        Base::Int(ty) => put(out, int_name(*ty)),
        Base::Named(name) => put_name(out, b"", name),
        Base::Struct(tag, groups) => {
            put(out, b"struct")?;
            put_tag(out, tag)?;
            put_defined(out, groups.is_some())
        }
        Base::Enum(tag, items) => {
            put(out, b"enum")?;
            put_tag(out, tag)?;
            put_defined(out, items.is_some())
        }
    }
}

pub fn put_stars(out: &mut Vec<u8>, stars: u8) -> Result<(), NoMemory> {
    for _ in 0..stars {
        put(out, b"*")?;
    }
    Ok(())
}

/// So many dimensions.
pub fn put_dims(out: &mut Vec<u8>, count: usize) -> Result<(), NoMemory> {
    for _ in 0..count {
        put(out, b"[]")?;
    }
    Ok(())
}

pub fn put_type(out: &mut Vec<u8>, ty: &TypeSpec) -> Result<(), NoMemory> {
    if ty.is_const {
        put(out, b"const ")?;
    }
    put_base(out, &ty.base)?;
    put_stars(out, ty.stars)?;
    put_dims(out, ty.dims.as_slice().len())
}

fn put_param(out: &mut Vec<u8>, param: &Param) -> Result<(), NoMemory> {
    put_type(out, &param.ty)?;
    match &param.name {
        None => Ok(()),
        Some(name) => put_name(out, b" ", name),
    }
}

/// Parameters in parentheses.
pub fn put_params(out: &mut Vec<u8>, params: &[Param]) -> Result<(), NoMemory> {
    put(out, b"(")?;
    let mut is_first = true;
    for param in params {
        if !is_first {
            put(out, b", ")?;
        }
        is_first = false;
        put_param(out, param)?;
    }
    put(out, b")")
}

/// The parameter of a bracket.
pub fn put_bracket(out: &mut Vec<u8>, bracket: &Option<Param>) -> Result<(), NoMemory> {
    match bracket {
        None => Ok(()),
        Some(param) => {
            put(out, b"[")?;
            put_param(out, param)?;
            put(out, b"]")
        }
    }
}
