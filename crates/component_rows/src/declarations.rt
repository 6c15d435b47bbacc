//! Declarations as texts: an initialiser is `=`, a body `{}`, an argument of an attribute `.`.

use crate::types::{put, put_bracket, put_dims, put_name, put_params, put_stars, put_type};
use nesc_tree::{Attr, Decl, FuncHead, FuncKind, VarGroup, Variable};
use nm_base::NoMemory;

pub fn put_attrs(out: &mut Vec<u8>, attrs: &[Attr]) -> Result<(), NoMemory> {
    for attr in attrs {
        put_name(out, b" @", &attr.name)?;
        put(out, b"(")?;
        for _ in attr.args.as_slice() {
            put(out, b".")?;
        }
        put(out, b")")?;
    }
    Ok(())
}

fn put_variable(out: &mut Vec<u8>, variable: &Variable) -> Result<(), NoMemory> {
    put_stars(out, variable.declarator.stars)?;
    put_name(out, b"", &variable.declarator.name)?;
    put_dims(out, variable.declarator.dims.as_slice().len())?;
    if variable.init.is_some() {
        put(out, b"=")
    } else {
        Ok(())
    }
}

fn put_group(out: &mut Vec<u8>, group: &VarGroup) -> Result<(), NoMemory> {
    if group.norace {
        put(out, b"norace ")?;
    }
    put_type(out, &group.ty)?;
    for variable in group.vars.as_slice() {
        put(out, b" ")?;
        put_variable(out, variable)?;
    }
    put(out, b";")
}

fn put_words(out: &mut Vec<u8>, head: &FuncHead) -> Result<(), NoMemory> {
    if head.is_async {
        put(out, b"async ")?;
    }
    if head.is_default {
        put(out, b"default ")?;
    }
    match head.kind {
        FuncKind::Plain => Ok(()),
        FuncKind::Task => put(out, b"task "),
        FuncKind::Command => put(out, b"command "),
        FuncKind::Event => put(out, b"event "),
    }
}

fn put_head(out: &mut Vec<u8>, head: &FuncHead) -> Result<(), NoMemory> {
    put_words(out, head)?;
    put_type(out, &head.result)?;
    put_name(out, b" ", &head.name)?;
    if let Some(item) = &head.item {
        put_name(out, b".", item)?;
    }
    put_bracket(out, &head.bracket)?;
    put_params(out, head.params.as_slice())?;
    put_attrs(out, head.attrs.as_slice())
}

/// The declaration as a text.
pub fn put_decl(out: &mut Vec<u8>, decl: &Decl) -> Result<(), NoMemory> {
    match decl {
        Decl::Typedef {
            name,
            ty,
            attrs,
            ..
        } => {
            put(out, b"typedef ")?;
            put_type(out, ty)?;
            put_name(out, b" ", name)?;
            put_attrs(out, attrs.as_slice())?;
            put(out, b";")
        }
        Decl::TypeOnly(ty, _) => {
            put_type(out, ty)?;
            put(out, b";")
        }
        Decl::Vars(group) => put_group(out, group),
        Decl::Func { head, body } => {
            put_head(out, head)?;
            put(out, if body.is_some() { b" {}" } else { b";" })
        }
    }
}
