//! What is still to be done in a body.

use crate::access::Local;
use crate::changes::Change;
use crate::scope::Scope;
use core_meaning::{Flow, Where};
use nesc_core::{BinOp, CoreExpr, CoreStmt, CoreType, Place, UnOp};
use nm_base::{Action, IntType, List};

/// One thing that is still to be done: it takes what it needs from the stacks of a machine, and puts there what it gives.
#[derive(Drop)]
pub(crate) enum Task<'a> {
    /// Gives the value of an expression.
    Value(&'a CoreExpr),
    /// Evaluates an expression as the second operand of a logical operator, unless the first decides.
    Second(Logical, &'a CoreExpr),
    /// Evaluates the first expression, or the second where the value is 0.
    Cond(&'a CoreExpr, &'a CoreExpr),
    /// Gives where a place is.
    Find(&'a Place),
    /// Gives this.
    At(Where),
    /// Does something with a place that was found.
    Access(Access, &'a Place),
    /// Gives where a pointer to this type points.
    Point(&'a CoreType),
    /// Does something with values alone.
    Operate(Operation),
    /// Gives how a statement is left.
    Run(&'a CoreStmt),
    /// Runs the first statement, or the second where the value is 0.
    If(&'a Box<CoreStmt>, &'a Box<CoreStmt>),
    /// Runs the statements from the case of the value on.
    Switch(&'a List<(Option<i64>, u32)>, &'a List<CoreStmt>),
    /// Goes on with a loop, of which at most so many turns are left.
    Repeat(Stage, Loop<'a>, u32),
    /// The result of an inlined call goes to a local.
    Keep(usize),
    /// Runs the rest of a list, if the statement before was left to go on.
    Rest(&'a [CoreStmt]),
    /// Gives how a statement is left.
    Leave(Way),
    /// A local is 0 again.
    Clear(u32),
    /// Evaluates the rest of the arguments.
    Pass(Arguments<'a>),
    /// Takes one more argument.
    Passed(Arguments<'a>),
    /// Goes back to the caller.
    Back(Caller<'a>),
}

/// What is done with values alone.
#[derive(Clone, Copy, Drop)]
pub(crate) enum Operation {
    Give(i64),
    Unary(UnOp, IntType),
    Binary(BinOp, IntType),
    Convert(IntType),
    Offset(u32),
    Distance(u32),
    Truth,
    Out(u16),
    Ask(Action),
    Perform(Action),
    Drop,
}

/// What is done with a place.
#[derive(Clone, Copy, Drop)]
pub(crate) enum Access {
    Index,
    Field(u32),
    Address,
    Load,
    /// Loads from a place that is still needed.
    Old,
    Store,
    Change(Change),
}

/// How a statement is left.
#[derive(Clone, Copy, Drop)]
pub(crate) enum Way {
    By(Flow),
    /// With the value.
    Gives,
    /// A switch takes the breaks of its statements.
    OutOfSwitch,
    /// An inlined call goes on, however its code is left.
    OutOfCall,
}

/// A logical operator.
#[derive(Clone, Copy, Drop)]
pub(crate) enum Logical {
    And,
    Or,
}

/// A loop, whose test comes first or last in each turn.
#[derive(Clone, Copy, Drop)]
pub(crate) struct Loop<'a> {
    pub(crate) first: bool,
    pub(crate) test: &'a CoreExpr,
    pub(crate) step: &'a Option<CoreExpr>,
    pub(crate) body: &'a CoreStmt,
}

/// How far a turn of a loop is.
#[derive(Clone, Copy, Drop)]
pub(crate) enum Stage {
    Begins,
    /// The test has a value.
    Tested,
    /// The body was left.
    Left,
}

/// The arguments of a call: those that were passed, and those that are still to be evaluated.
#[derive(Drop)]
pub(crate) struct Arguments<'a> {
    pub(crate) to: Callee,
    pub(crate) passed: Vec<i64>,
    pub(crate) rest: &'a [CoreExpr],
}

/// What is called: a body, or the code of an inlined call, whose arguments are locals.
#[derive(Clone, Copy, Drop)]
pub(crate) enum Callee {
    Body(u32),
    Here(u32, u32),
}

/// Where a body goes on when a call returns.
#[derive(Drop)]
pub(crate) struct Caller<'a> {
    pub(crate) scope: Scope<'a>,
    pub(crate) locals: Vec<Local>,
}
