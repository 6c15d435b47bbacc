//! Trees of expressions and types.

use nm_base::{Boxed, IntType, List, Name, Pos};

#[derive(Clone, Copy, PartialEq, Eq, Debug)]
pub enum PreOp {
    Inc,
    Dec,
    Addr,
    Deref,
    Plus,
    Neg,
    Not,
    IsZero,
}

#[derive(Clone, Copy, PartialEq, Eq, Debug)]
pub enum PostOp {
    Inc,
    Dec,
}

#[derive(Clone, Copy, PartialEq, Eq, Debug)]
pub enum InOp {
    Mul,
    Div,
    Rem,
    Add,
    Sub,
    Shl,
    Shr,
    Lt,
    Gt,
    Le,
    Ge,
    Eq,
    Ne,
    And,
    Xor,
    Or,
    AndAnd,
    OrOr,
}

/// An expression with the position of its first token. The name of a number, a character or a text is its spelling.
#[derive(Drop)]
#[cycle(tree)]
pub enum Expr {
    Name(Name, Pos),
    Number(Name, Pos),
    Char(Name, Pos),
    Null(Pos),
    Unique(Name, Pos),
    UniqueCount(Name, Pos),
    Unary(PreOp, Boxed<Expr>, Pos),
    Postfix(PostOp, Boxed<Expr>, Pos),
    Binary(InOp, Boxed<Expr>, Boxed<Expr>, Pos),
    /// None for `=`, and for `op=` the operator.
    Assign(Option<InOp>, Boxed<Expr>, Boxed<Expr>, Pos),
    Cond(Boxed<Expr>, Boxed<Expr>, Boxed<Expr>, Pos),
    Comma(Boxed<Expr>, Boxed<Expr>, Pos),
    Cast(TypeSpec, Boxed<Expr>, Pos),
    SizeOfExpr(Boxed<Expr>, Pos),
    SizeOfType(TypeSpec, Pos),
    Index(Boxed<Expr>, Boxed<Expr>, Pos),
    Member(Boxed<Expr>, Name, Pos),
    Arrow(Boxed<Expr>, Name, Pos),
    CallFn(Boxed<Expr>, List<Expr>, Pos),
    CallItem {
        signal: bool,
        element: Name,
        item: Name,
        param: Option<Boxed<Expr>>,
        args: List<Expr>,
        pos: Pos,
    },
    PortRead(Boxed<Expr>, Pos),
    PortWrite(Boxed<Expr>, Boxed<Expr>, Pos),
    Post(Name, Pos),
}

/// A type: `stars` pointers to the base, and the dimensions of an array of them.
#[derive(Drop)]
#[cycle(tree)]
pub struct TypeSpec {
    pub base: Base,
    pub stars: u8,
    pub dims: List<Expr>,
    pub is_const: bool,
}

#[derive(Drop)]
#[cycle(tree)]
pub enum Base {
    Void,
    Int(IntType),
    Named(Name),
    /// The tag, and the fields where it is a definition.
    Struct(Option<Name>, Option<List<FieldGroup>>),
    /// The tag, and the constants where it is a definition.
    Enum(Option<Name>, Option<List<EnumItem>>),
}

/// Fields of a struct that share a type, which has no stars and no dimensions of its own.
#[derive(Drop)]
#[cycle(tree)]
pub struct FieldGroup {
    pub ty: TypeSpec,
    pub fields: List<Declarator>,
}

/// A declared name, with the pointers and the dimensions of an array that stand beside it.
#[derive(Drop)]
#[cycle(tree)]
pub struct Declarator {
    pub stars: u8,
    pub name: Name,
    pub dims: List<Expr>,
}

#[derive(Drop)]
#[cycle(tree)]
pub struct EnumItem {
    pub name: Name,
    pub value: Option<Expr>,
    pub pos: Pos,
}

/// A parameter of a function.
#[derive(Drop)]
pub struct Param {
    pub ty: TypeSpec,
    pub name: Option<Name>,
}
