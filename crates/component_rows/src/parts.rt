//! Components and interfaces as texts: `e` is the value of an argument or of a bracket.

use crate::declarations::{put_attrs, put_decl};
use crate::types::{put, put_name, put_params, put_type};
use nesc_tree::{
    ConfLine, Config, Decl, Elem, GenericArg, GenericParam, Head, Interface, Module, Part, Sig,
    TypeSpec, Unit, WireEnd,
};
use nm_base::{Name, NoMemory};

fn put_decls(out: &mut Vec<u8>, decls: &[Decl]) -> Result<(), NoMemory> {
    for decl in decls {
        put_decl(out, decl)?;
        put(out, b" ")?;
    }
    Ok(())
}

fn put_types(out: &mut Vec<u8>, types: &[TypeSpec]) -> Result<(), NoMemory> {
    if types.is_empty() {
        return Ok(());
    }
    put(out, b"<")?;
    let mut is_first = true;
    for ty in types {
        if !is_first {
            put(out, b", ")?;
        }
        is_first = false;
        put_type(out, ty)?;
    }
    put(out, b">")
}

fn put_names(out: &mut Vec<u8>, names: &[Name]) -> Result<(), NoMemory> {
    if names.is_empty() {
        return Ok(());
    }
    put(out, b"<")?;
    let mut is_first = true;
    for name in names {
        put_name(out, if is_first { b"" } else { b", " }, name)?;
        is_first = false;
    }
    put(out, b">")
}

fn put_sig(out: &mut Vec<u8>, sig: &Sig) -> Result<(), NoMemory> {
    if sig.is_async {
        put(out, b"async ")?;
    }
    put(out, if sig.is_event { b"event " } else { b"command " })?;
    put_type(out, &sig.result)?;
    put_name(out, b" ", &sig.name)?;
    put_params(out, sig.params.as_slice())?;
    put(out, b"; ")
}

fn put_interface(out: &mut Vec<u8>, interface: &Interface) -> Result<(), NoMemory> {
    put_name(out, b"interface ", &interface.name)?;
    put_names(out, interface.params.as_slice())?;
    put_attrs(out, interface.attrs.as_slice())?;
    put(out, b" { ")?;
    for sig in interface.items.as_slice() {
        put_sig(out, sig)?;
    }
    put(out, b"}")
}

fn put_generic_param(out: &mut Vec<u8>, param: &GenericParam) -> Result<(), NoMemory> {
    match &param.ty {
        None => put_name(out, b"typedef ", &param.name),
        Some(ty) => {
            put_type(out, ty)?;
            put_name(out, b" ", &param.name)
        }
    }
}

fn put_generic_params(out: &mut Vec<u8>, params: &[GenericParam]) -> Result<(), NoMemory> {
    put(out, b"(")?;
    let mut is_first = true;
    for param in params {
        if !is_first {
            put(out, b", ")?;
        }
        is_first = false;
        put_generic_param(out, param)?;
    }
    put(out, b")")
}

// An element with its name, also where that is the interface's.
fn put_elem(out: &mut Vec<u8>, elem: &Elem) -> Result<(), NoMemory> {
    put(out, if elem.provides { b"provides" } else { b"uses" })?;
    put_name(out, b" ", &elem.iface)?;
    put_types(out, elem.args.as_slice())?;
    put_name(out, b" as ", &elem.name)?;
    if let Some(ty) = &elem.param {
        put(out, b"[")?;
        put_type(out, ty)?;
        put(out, b"]")?;
    }
    put(out, b"; ")
}

fn put_head(out: &mut Vec<u8>, word: &[u8], head: &Head) -> Result<(), NoMemory> {
    put_name(out, word, &head.name)?;
    if let Some(params) = &head.generic {
        put_generic_params(out, params.as_slice())?;
    }
    put_attrs(out, head.attrs.as_slice())?;
    put(out, b" { ")?;
    for elem in head.elems.as_slice() {
        put_elem(out, elem)?;
    }
    put(out, b"} { ")
}

fn put_module(out: &mut Vec<u8>, module: &Module) -> Result<(), NoMemory> {
    put_head(out, b"module ", &module.head)?;
    put_decls(out, module.decls.as_slice())?;
    put(out, b"}")
}

fn put_args(out: &mut Vec<u8>, args: &[GenericArg]) -> Result<(), NoMemory> {
    put(out, b"(")?;
    let mut is_first = true;
    for arg in args {
        if !is_first {
            put(out, b", ")?;
        }
        is_first = false;
        match arg {
            GenericArg::Ty(ty) => put_type(out, ty)?,
            GenericArg::Value(_) => put(out, b"e")?,
        }
    }
    put(out, b")")
}

fn put_end(out: &mut Vec<u8>, end: &WireEnd) -> Result<(), NoMemory> {
    put_name(out, b"", &end.first)?;
    if let Some(name) = &end.second {
        put_name(out, b".", name)?;
    }
    if end.param.is_some() {
        put(out, b"[e]")
    } else {
        Ok(())
    }
}

fn put_ends(out: &mut Vec<u8>, a: &WireEnd, joint: &[u8], b: &WireEnd) -> Result<(), NoMemory> {
    put_end(out, a)?;
    put(out, joint)?;
    put_end(out, b)?;
    put(out, b"; ")
}

// A component with its alias, also where that is its name.
fn put_component(
    out: &mut Vec<u8>,
    name: &Name,
    new_args: Option<&[GenericArg]>,
    alias: &Name,
) -> Result<(), NoMemory> {
    match new_args {
        None => put_name(out, b"", name)?,
        Some(args) => {
            put_name(out, b"new ", name)?;
            put_args(out, args)?;
        }
    }
    put_name(out, b" as ", alias)?;
    put(out, b"; ")
}

fn put_line(out: &mut Vec<u8>, line: &ConfLine) -> Result<(), NoMemory> {
    match line {
        ConfLine::Component {
            name,
            new_args,
            alias,
            ..
        } => match new_args {
            None => put_component(out, name, None, alias),
            Some(args) => put_component(out, name, Some(args.as_slice()), alias),
        },
        ConfLine::Link { from, to, .. } => put_ends(out, from, b" -> ", to),
        ConfLine::Equate { a, b, .. } => put_ends(out, a, b" = ", b),
        ConfLine::Decl(decl) => {
            put_decl(out, decl)?;
            put(out, b" ")
        }
    }
}

fn put_config(out: &mut Vec<u8>, config: &Config) -> Result<(), NoMemory> {
    put_head(out, b"configuration ", &config.head)?;
    for line in config.lines.as_slice() {
        put_line(out, line)?;
    }
    put(out, b"}")
}

/// What a file holds as a text.
pub fn put_unit(out: &mut Vec<u8>, unit: &Unit) -> Result<(), NoMemory> {
    put_decls(out, unit.decls.as_slice())?;
    match &unit.part {
        Part::Interface(interface) => put_interface(out, interface),
        Part::Module(module) => put_module(out, module),
        Part::Config(config) => put_config(out, config),
        Part::Header => put(out, b"header"),
    }
}
