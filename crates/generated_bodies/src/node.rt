//! Trees in postfix order: the nodes of each part stand in front of its own.

use nesc_core::{BinOp, UnOp};
use nm_base::IntType;

/// A node of a tree.
#[derive(Clone, Copy)]
pub(crate) enum Node {
    Place(PlaceNode),
    Expr(ExprNode),
    /// Where a case of the next switch begins.
    Case(Option<i64>, u32),
    Stmt(StmtNode),
}

/// A place, which takes what it is made of from those before it.
#[derive(Clone, Copy)]
pub(crate) enum PlaceNode {
    Object(u32),
    Local(u32),
    /// The byte that a pointer points to.
    Byte,
    Index,
    Field(u32),
}

/// An expression, which takes its operands from those before it. A call has so many arguments.
#[derive(Clone, Copy)]
pub(crate) enum ExprNode {
    Const(IntType, i64),
    Null,
    Read,
    Addr,
    Un(UnOp, IntType),
    Bin(BinOp, IntType),
    Convert(IntType),
    Offset,
    Distance,
    And,
    Or,
    Cond,
    Assign,
    Update(BinOp, IntType, bool),
    Call(u32, u32),
    Post(u32),
    In(u16),
    Out(u16),
    Comma,
}

/// A statement, which takes its parts from those before it. A block and a switch have so many statements; the flags of a loop tell that
/// the test comes before the first turn, and that there is a step; that of a return, that there is a value.
#[derive(Clone, Copy)]
pub(crate) enum StmtNode {
    Eval,
    Block(u32),
    If,
    Loop(bool, bool),
    Switch(u32),
    Break,
    Continue,
    Return(bool),
    Atomic,
    Clear(u32),
}
