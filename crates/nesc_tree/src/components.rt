//! Trees of components and interfaces.

use crate::declarations::{Attr, Decl};
use crate::tree::{Expr, Param, TypeSpec};
use nm_base::{List, Name, Pos};

/// What a file holds: declarations of headers, and the component or interface behind them.
#[derive(Drop)]
pub struct Unit {
    pub decls: List<Decl>,
    pub part: Part,
}

#[derive(Drop)]
pub enum Part {
    Interface(Interface),
    Module(Module),
    Config(Config),
    Header,
}

#[derive(Drop)]
pub struct Interface {
    pub name: Name,
    pub params: List<Name>,
    pub items: List<Sig>,
    pub attrs: List<Attr>,
}

/// A command or event of an interface.
#[derive(Drop)]
pub struct Sig {
    pub name: Name,
    pub is_event: bool,
    pub is_async: bool,
    pub result: TypeSpec,
    pub params: List<Param>,
    pub pos: Pos,
}

#[derive(Drop)]
pub struct Module {
    pub head: Head,
    pub decls: List<Decl>,
}

#[derive(Drop)]
pub struct Config {
    pub head: Head,
    pub lines: List<ConfLine>,
}

/// The head of a component; `generic` has the parameters of a generic one.
#[derive(Drop)]
pub struct Head {
    pub name: Name,
    pub generic: Option<List<GenericParam>>,
    pub elems: List<Elem>,
    pub attrs: List<Attr>,
}

/// A parameter of a generic component; a type parameter has no type.
#[derive(Drop)]
pub struct GenericParam {
    pub name: Name,
    pub ty: Option<TypeSpec>,
}

#[derive(Drop)]
pub enum GenericArg {
    Ty(TypeSpec),
    Value(Expr),
}

/// An interface that a component provides or uses, and the type of its bracket's parameter.
#[derive(Drop)]
pub struct Elem {
    pub provides: bool,
    pub iface: Name,
    pub args: List<TypeSpec>,
    pub name: Name,
    pub param: Option<TypeSpec>,
    pub pos: Pos,
}

/// A line of a configuration; `b <- a` is a link from `a` to `b`.
#[derive(Drop)]
pub enum ConfLine {
    Component {
        name: Name,
        new_args: Option<List<GenericArg>>,
        alias: Name,
        pos: Pos,
    },
    Link {
        from: WireEnd,
        to: WireEnd,
        pos: Pos,
    },
    Equate {
        a: WireEnd,
        b: WireEnd,
        pos: Pos,
    },
    Decl(Decl),
}

#[derive(Drop)]
pub struct WireEnd {
    pub first: Name,
    pub second: Option<Name>,
    pub param: Option<Expr>,
}
