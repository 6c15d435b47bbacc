//! What stands behind an operand and makes a longer one of it.

ghost use Rattle.std.specs.Prelude.{◌≡◌, ◌<◌, ◌^◌, IfOk};
ghost use Rattle.nesc_grammar.specs.Grammar as grammar;
ghost use Rattle.nesc_parse_exprs.specs.Growing.{growth_of};

use nesc_operands::growths::{
    arrow_operand, assign_operand, binary_operand, call_operand, choice_operand, comma_operand,
    index_operand, member_operand, postfix_operand,
};
use nesc_tree::{Arguments, InOp, Operand, PostOp};
use nm_base::{NoMemory, Token};
use std::alloc::Global;

/// What stands behind an operand and makes a longer one of it.
#[derive(Drop)]
pub enum Growing<'a> {
    /// The operator, its level, and the right operand
    Binary(InOp, u8, Operand),
    Comma(Operand),
    /// None is the operator of `=`.
    Assign(Option<InOp>, Operand),
    Choice(Operand, Operand),
    Index(Operand),
    Call(Arguments),
    Member(&'a Token),
    Arrow(&'a Token),
    Step(PostOp),
}

/// The longer operand.
pub fn grown(alloc: Global, left: Operand, growing: Growing<'_>) -> Result<Operand, NoMemory>
    requires first { left.height < 2 ^ 63 }
    requires second { (growth_of growing).height < 2 ^ 63 }
    ensures { IfOk result (λ x. x ≡ grammar.grown (growth_of growing.entry) left) }
{
    match growing {
        Growing::Binary(op, binds, right) => binary_operand(alloc, op, binds, left, right),
        Growing::Comma(right) => comma_operand(alloc, left, right),
        Growing::Assign(op, right) => assign_operand(alloc, op, left, right),
        Growing::Choice(then, other) => choice_operand(alloc, left, then, other),
        Growing::Index(index) => index_operand(alloc, left, index),
        Growing::Call(arguments) => call_operand(alloc, left, arguments),
        Growing::Member(member) => member_operand(alloc, left, member),
        Growing::Arrow(member) => arrow_operand(alloc, left, member),
        Growing::Step(op) => postfix_operand(alloc, op, left),
    }
}
