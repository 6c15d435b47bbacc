//! Operators as they are spelled, and how strongly they bind.

ghost use Rattle.std.specs.Prelude.{◌≡◌, ◌≤◌, nat_le};
ghost use Rattle.nesc_tree.specs.View.{expr_of};
ghost use Rattle.nesc_print_words.specs.Expressions as exprs;
ghost use Rattle.nesc_print_words.specs.Operators as spec;

use nesc_tree::level::{
    ADDITIVE, ASSIGNMENT, BIT_AND, BIT_OR, BIT_XOR, CAST, COMMA, CONDITIONAL, EQUALITY,
    LOGICAL_AND, LOGICAL_OR, MULTIPLICATIVE, POSTFIX, RELATIONAL, SHIFT, UNARY,
};
use nesc_tree::{Expr, InOp, PostOp, PreOp};
use nm_base::IntType;

pub fn infix_text(op: InOp) -> &'static [u8]
    ensures { result.now ≡ spec.infix_text op }
{
    match op {
        InOp::Mul => b"*",
        InOp::Div => b"/",
        InOp::Rem => b"%",
        InOp::Add => b"+",
        InOp::Sub => b"-",
        InOp::Shl => b"<<",
        InOp::Shr => b">>",
        InOp::Lt => b"<",
        InOp::Gt => b">",
        InOp::Le => b"<=",
        InOp::Ge => b">=",
        InOp::Eq => b"==",
        InOp::Ne => b"!=",
        InOp::And => b"&",
        InOp::Xor => b"^",
        InOp::Or => b"|",
        InOp::AndAnd => b"&&",
        InOp::OrOr => b"||",
    }
}

pub fn infix_level(op: InOp) -> u8
    ensures level { result ≡ spec.infix_level op }
    ensures small { result ≤ 15 }
{
    match op {
        InOp::Mul | InOp::Div | InOp::Rem => MULTIPLICATIVE,
        InOp::Add | InOp::Sub => ADDITIVE,
        InOp::Shl | InOp::Shr => SHIFT,
        InOp::Lt | InOp::Gt | InOp::Le | InOp::Ge => RELATIONAL,
        InOp::Eq | InOp::Ne => EQUALITY,
        InOp::And => BIT_AND,
        InOp::Xor => BIT_XOR,
        InOp::Or => BIT_OR,
        InOp::AndAnd => LOGICAL_AND,
        InOp::OrOr => LOGICAL_OR,
    }
}

fn compound_text(op: InOp) -> &'static [u8]
    ensures { result.now ≡ spec.compound_text op }
{
    match op {
        InOp::Mul => b"*=",
        InOp::Div => b"/=",
        InOp::Rem => b"%=",
        InOp::Add => b"+=",
        InOp::Sub => b"-=",
        InOp::Shl => b"<<=",
        InOp::Shr => b">>=",
        InOp::And => b"&=",
        InOp::Xor => b"^=",
        _ => b"|=",
    }
}

pub fn assignment_text(op: Option<InOp>) -> &'static [u8]
    ensures { result.now ≡ spec.assignment_text op }
{
    match op {
        None => b"=",
        Some(op) => compound_text(op),
    }
}

pub fn prefix_text(op: PreOp) -> &'static [u8]
    ensures { result.now ≡ spec.prefix_text op }
{
    match op {
        PreOp::Inc => b"++",
        PreOp::Dec => b"--",
        PreOp::Addr => b"&",
        PreOp::Deref => b"*",
        PreOp::Plus => b"+",
        PreOp::Neg => b"-",
        PreOp::Not => b"~",
        PreOp::IsZero => b"!",
    }
}

/// The level of the operand: no cast stands behind `++`.
pub fn prefix_needs(op: PreOp) -> u8
    ensures { result ≡ spec.prefix_needs op }
{
    match op {
        PreOp::Inc | PreOp::Dec => UNARY,
        _ => CAST,
    }
}

pub fn suffix_text(op: PostOp) -> &'static [u8]
    ensures { result.now ≡ spec.suffix_text op }
{
    match op {
        PostOp::Inc => b"++",
        PostOp::Dec => b"--",
    }
}

pub fn is_unsigned_type(ty: IntType) -> bool
    ensures { result ≡ spec.is_unsigned_type ty }
{
    match ty {
        IntType::I8 | IntType::I16 | IntType::I32 => false,
        IntType::U8 | IntType::U16 | IntType::U32 => true,
    }
}

pub fn integer_text(ty: IntType) -> &'static [u8]
    ensures { result.now ≡ spec.integer_text ty }
{
    match ty {
        IntType::I8 | IntType::U8 => b"char",
        IntType::I16 | IntType::U16 => b"int",
        IntType::I32 | IntType::U32 => b"long",
    }
}

// The level of an expression that stands without parentheses.
fn level_of(e: &Expr) -> u8
    ensures { result ≡ exprs.level_of (expr_of e.now) }
{
    match e {
        Expr::Binary(op, _, _, _) => infix_level(*op),
        Expr::Comma(_, _, _) => COMMA,
        Expr::Assign(_, _, _, _) => ASSIGNMENT,
        Expr::Cond(_, _, _, _) => CONDITIONAL,
        Expr::Cast(_, _, _) => CAST,
        Expr::Unary(_, _, _) | Expr::SizeOfExpr(_, _) | Expr::SizeOfType(_, _) => UNARY,
        Expr::Name(_, _)
        | Expr::Number(_, _)
        | Expr::Char(_, _)
        | Expr::Null(_)
        | Expr::Unique(_, _)
        | Expr::UniqueCount(_, _)
        | Expr::Postfix(_, _, _)
        | Expr::Index(_, _, _)
        | Expr::Member(_, _, _)
        | Expr::Arrow(_, _, _)
        | Expr::CallFn(_, _, _)
        | Expr::CallItem { .. }
        | Expr::PortRead(_, _)
        | Expr::PortWrite(_, _, _)
        | Expr::Post(_, _) => POSTFIX,
    }
}

/// Whether the expression stands without parentheses where one of at least the level `least` does.
pub fn stands_bare(least: u8, e: &Expr) -> bool
    ensures { result ≡ nat_le least (exprs.level_of (expr_of e.now)) }
{
    least <= level_of(e)
}
