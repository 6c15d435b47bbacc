//! Declarations as texts: an initialiser is `=`, a body `{}`.

use crate::types::{put, put_declarator, put_name, put_type};
use nesc_tree::{Attr, Decl, FuncHead, FuncKind, Param, Stmt, VarGroup, Variable};
use nm_base::NoMemory;

/// A greater number than that of a tree's levels.
const LEVELS: u32 = 1_000;

fn put_attrs(out: &mut Vec<u8>, attrs: &[Attr]) -> Result<(), NoMemory> {
    for attr in attrs {
        put_name(out, b" @", &attr.name)?;
        put(out, b"(")?;
        for _ in attr.args.as_slice() {
            put(out, b".")?;
        }
        put(out, b")")?;
    }
    Ok(())
}

fn put_variable(out: &mut Vec<u8>, variable: &Variable) -> Result<(), NoMemory> {
    put_declarator(out, &variable.declarator)?;
    match &variable.init {
        None => Ok(()),
        Some(_) => put(out, b"="),
    }
}

fn put_variables(out: &mut Vec<u8>, variables: &[Variable]) -> Result<(), NoMemory> {
    let mut is_first = true;
    for variable in variables {
        if !is_first {
            put(out, b", ")?;
        }
        is_first = false;
        put_variable(out, variable)?;
    }
    Ok(())
}

fn put_group(out: &mut Vec<u8>, group: &VarGroup) -> Result<(), NoMemory> {
    if group.norace {
        put(out, b"norace ")?;
    }
    put_type(out, &group.ty, LEVELS)?;
    put(out, b" ")?;
    put_variables(out, group.vars.as_slice())?;
    put(out, b";")
}

fn put_param(out: &mut Vec<u8>, param: &Param) -> Result<(), NoMemory> {
    put_type(out, &param.ty, LEVELS)?;
    match &param.name {
        None => Ok(()),
        Some(name) => put_name(out, b" ", name),
    }
}

fn put_params(out: &mut Vec<u8>, params: &[Param]) -> Result<(), NoMemory> {
    put(out, b"(")?;
    let mut is_first = true;
    for param in params {
        if !is_first {
            put(out, b", ")?;
        }
        is_first = false;
        put_param(out, param)?;
    }
    put(out, b")")
}

fn put_words(out: &mut Vec<u8>, head: &FuncHead) -> Result<(), NoMemory> {
    if head.is_async {
        put(out, b"async ")?;
    }
    if head.is_default {
        put(out, b"default ")?;
    }
    match head.kind {
        FuncKind::Plain => Ok(()),
        FuncKind::Task => put(out, b"task "),
        FuncKind::Command => put(out, b"command "),
        FuncKind::Event => put(out, b"event "),
    }
}

fn put_names(out: &mut Vec<u8>, head: &FuncHead) -> Result<(), NoMemory> {
    put_name(out, b" ", &head.name)?;
    match &head.item {
        None => Ok(()),
        Some(item) => put_name(out, b".", item),
    }
}

fn put_bracket(out: &mut Vec<u8>, head: &FuncHead) -> Result<(), NoMemory> {
    match &head.bracket {
        None => Ok(()),
        Some(param) => {
            put(out, b"[")?;
            put_param(out, param)?;
            put(out, b"]")
        }
    }
}

fn put_head(out: &mut Vec<u8>, head: &FuncHead) -> Result<(), NoMemory> {
    put_words(out, head)?;
    put_type(out, &head.result, LEVELS)?;
    put_names(out, head)?;
    put_bracket(out, head)?;
    put_params(out, head.params.as_slice())?;
    put_attrs(out, head.attrs.as_slice())
}

fn put_body(out: &mut Vec<u8>, body: &Option<Stmt>) -> Result<(), NoMemory> {
    match body {
        None => put(out, b";"),
        Some(_) => put(out, b" {}"),
    }
}

/// The declaration as a text.
pub fn put_decl(out: &mut Vec<u8>, decl: &Decl) -> Result<(), NoMemory> {
    match decl {
        Decl::Typedef {
            name,
            ty,
            attrs,
            ..
        } => {
            put(out, b"typedef ")?;
            put_type(out, ty, LEVELS)?;
            put_name(out, b" ", name)?;
            put_attrs(out, attrs.as_slice())?;
            put(out, b";")
        }
        Decl::TypeOnly(ty, _) => {
            put_type(out, ty, LEVELS)?;
            put(out, b";")
        }
        Decl::Vars(group) => put_group(out, group),
        Decl::Func { head, body } => {
            put_head(out, head)?;
            put_body(out, body)
        }
    }
}
