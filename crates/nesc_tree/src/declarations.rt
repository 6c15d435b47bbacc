//! Trees of declarations and statements.

use crate::tree::{Declarator, Expr, Param, TypeSpec};
use nm_base::{Boxed, List, Name, Pos};

#[derive(Drop)]
#[cycle(declarations)]
pub enum Decl {
    Typedef {
        name: Name,
        ty: TypeSpec,
        attrs: List<Attr>,
        pos: Pos,
    },
    TypeOnly(TypeSpec, Pos),
    Vars(VarGroup),
    Func {
        head: FuncHead,
        body: Option<Stmt>,
    },
}

/// Variables that share a type, which has no stars and no dimensions of its own.
#[derive(Drop)]
pub struct VarGroup {
    pub ty: TypeSpec,
    pub norace: bool,
    pub vars: List<Variable>,
}

/// A variable with the position of its name.
#[derive(Drop)]
pub struct Variable {
    pub declarator: Declarator,
    pub init: Option<Init>,
    pub pos: Pos,
}

/// The head of a function, of a task, or of a command or event `name.item`, with the parameter of its bracket.
#[derive(Drop)]
pub struct FuncHead {
    pub kind: FuncKind,
    pub name: Name,
    pub item: Option<Name>,
    pub bracket: Option<Param>,
    pub is_async: bool,
    pub is_default: bool,
    pub result: TypeSpec,
    pub params: List<Param>,
    pub attrs: List<Attr>,
    pub pos: Pos,
}

#[derive(Clone, Copy, PartialEq, Eq, Debug)]
pub enum FuncKind {
    Plain,
    Task,
    Command,
    Event,
}

#[derive(Drop)]
pub enum Init {
    One(Expr),
    Many(List<Init>),
}

#[derive(Drop)]
pub struct Attr {
    pub name: Name,
    pub args: List<AttrArg>,
}

#[derive(Drop)]
pub enum AttrArg {
    Text(Name),
    Value(Expr),
}

/// A statement with the position of its first token.
#[derive(Drop)]
#[cycle(declarations)]
pub enum Stmt {
    Block(List<Stmt>, Pos),
    Empty(Pos),
    Eval(Expr, Pos),
    Atomic(Boxed<Stmt>, Pos),
    If(Expr, Boxed<Stmt>, Option<Boxed<Stmt>>, Pos),
    While(Expr, Boxed<Stmt>, Pos),
    DoWhile(Boxed<Stmt>, Expr, Pos),
    For {
        start: ForStart,
        test: Option<Expr>,
        step: Option<Expr>,
        body: Boxed<Stmt>,
        pos: Pos,
    },
    Switch(Expr, Boxed<Stmt>, Pos),
    Case(Expr, Boxed<Stmt>, Pos),
    Default(Boxed<Stmt>, Pos),
    Break(Pos),
    Continue(Pos),
    Return(Option<Expr>, Pos),
    Local(Boxed<Decl>, Pos),
}

/// What stands before the first `;` of a `for`.
#[derive(Drop)]
pub enum ForStart {
    Nothing,
    Eval(Expr),
    Vars(VarGroup),
}
