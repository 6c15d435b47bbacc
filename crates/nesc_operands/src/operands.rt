//! Operands made of tokens and of smaller operands, with one equation each.

ghost use Rattle.std.specs.Prelude.{◌≡◌, ◌<◌, ◌^◌, IfOk, Option, None, Some, suc, max};
ghost use Rattle.nesc_tree.specs.declared.tree.Expr.TheVariants as e;
ghost use Rattle.nesc_tree.specs.Level as levels;
ghost use Rattle.nesc_grammar.specs.Grammar as spec;
ghost use Rattle.nesc_operands.specs.Operands as made;

use crate::boxes::boxed_pair;
use crate::operators::{is_spelled, prefix_of};
use nesc_tree::{Arguments, CastType, Expr, Operand, level};
use nm_base::{Boxed, List, Name, NoMemory, Pos, Token};
use std::alloc::Global;

fn text_of(alloc: Global, token: &Token) -> Result<Name, NoMemory>
    ensures { IfOk result (λ name. name ≡ token.now.text) }
{
    Name::new(alloc, token.text.as_bytes())
}

fn leaf(expr: Expr, from: Pos) -> Operand
    ensures { result ≡ spec.operand expr from levels.postfix 1 }
{
    Operand {
        expr,
        from,
        level: level::POSTFIX,
        height: 1,
    }
}

pub fn name_operand(alloc: Global, token: &Token) -> Result<Operand, NoMemory>
    ensures { IfOk result (λ a. a ≡ spec.leaf_operand (e.Name token.now.text token.now.pos) token.now) }
{
    Ok(leaf(Expr::Name(text_of(alloc, token)?, token.pos), token.pos))
}

pub fn number_operand(alloc: Global, token: &Token) -> Result<Operand, NoMemory>
    ensures { IfOk result (λ a. a ≡ spec.leaf_operand (e.Number token.now.text token.now.pos) token.now) }
{
    Ok(leaf(Expr::Number(text_of(alloc, token)?, token.pos), token.pos))
}

pub fn char_operand(alloc: Global, token: &Token) -> Result<Operand, NoMemory>
    ensures { IfOk result (λ a. a ≡ spec.leaf_operand (e.Char token.now.text token.now.pos) token.now) }
{
    Ok(leaf(Expr::Char(text_of(alloc, token)?, token.pos), token.pos))
}

pub fn null_operand(token: &Token) -> Operand
    ensures { result ≡ spec.leaf_operand (e.Null token.now.pos) token.now }
{
    leaf(Expr::Null(token.pos), token.pos)
}

/// `unique` or `uniqueCount` of a text.
#[tactic(auto, unfolding(nesc_grammar::specs::Grammar::unique_expr))]
pub fn unique_operand(alloc: Global, word: &Token, text: &Token) -> Result<Operand, NoMemory>
    ensures { IfOk result (λ a. a ≡ spec.leaf_operand (spec.unique_expr word.now text.now) word.now) }
{
    let name = text_of(alloc, text)?;
    if is_spelled(word, b"unique") {
        Ok(leaf(Expr::Unique(name, word.pos), word.pos))
    } else {
        Ok(leaf(Expr::UniqueCount(name, word.pos), word.pos))
    }
}

pub fn post_operand(alloc: Global, word: &Token, task: &Token) -> Result<Operand, NoMemory>
    ensures { IfOk result (λ a. a ≡ spec.leaf_operand (e.Post task.now.text word.now.pos) word.now) }
{
    Ok(leaf(Expr::Post(text_of(alloc, task)?, word.pos), word.pos))
}

pub fn unary_operand(alloc: Global, sign: &Token, a: Operand) -> Result<Operand, NoMemory>
    requires { a.height < 2 ^ 63 }
    ensures { IfOk result (λ x. x ≡ spec.unary_operand sign.now a) }
{
    let height = a.height + 1;
    let inner = Boxed::new(alloc, a.expr)?;
    Ok(Operand {
        expr: Expr::Unary(prefix_of(sign), inner, sign.pos),
        from: sign.pos,
        level: level::UNARY,
        height,
    })
}

pub fn cast_operand(
    alloc: Global,
    target: CastType,
    a: Operand,
    opening: &Token,
) -> Result<Operand, NoMemory>
    requires shallow { target.height < 2 ^ 63 }
    requires low { a.height < 2 ^ 63 }
    ensures { IfOk result (λ x. x ≡ spec.cast_operand target a opening.now) }
{
    let height = target.height.max(a.height) + 1;
    let inner = Boxed::new(alloc, a.expr)?;
    Ok(Operand {
        expr: Expr::Cast(target.ty, inner, opening.pos),
        from: opening.pos,
        level: level::CAST,
        height,
    })
}

/// Parentheses are a level and no node.
pub fn paren_operand(a: Operand, opening: &Token) -> Operand
    requires { a.height < 2 ^ 63 }
    ensures { result ≡ spec.paren_operand a opening.now }
{
    Operand {
        expr: a.expr,
        from: opening.pos,
        level: level::POSTFIX,
        height: a.height + 1,
    }
}

pub fn size_of_type(measured: CastType, word: &Token) -> Operand
    requires { measured.height < 2 ^ 63 }
    ensures { result ≡ spec.size_of_type measured word.now }
{
    let height = measured.height + 1;
    Operand {
        expr: Expr::SizeOfType(measured.ty, word.pos),
        from: word.pos,
        level: level::UNARY,
        height,
    }
}

pub fn size_of_expr(alloc: Global, a: Operand, word: &Token) -> Result<Operand, NoMemory>
    requires { a.height < 2 ^ 63 }
    ensures { IfOk result (λ x. x ≡ spec.size_of_expr a word.now) }
{
    let height = a.height + 1;
    let inner = Boxed::new(alloc, a.expr)?;
    Ok(Operand {
        expr: Expr::SizeOfExpr(inner, word.pos),
        from: word.pos,
        level: level::UNARY,
        height,
    })
}

pub fn port_read_operand(alloc: Global, word: &Token, port: Operand) -> Result<Operand, NoMemory>
    requires { port.height < 2 ^ 63 }
    ensures { IfOk result (λ x. x ≡ made.port_read word.now port) }
{
    let height = port.height + 1;
    let inner = Boxed::new(alloc, port.expr)?;
    Ok(Operand {
        expr: Expr::PortRead(inner, word.pos),
        from: word.pos,
        level: level::POSTFIX,
        height,
    })
}

pub fn port_write_operand(
    alloc: Global,
    word: &Token,
    port: Operand,
    value: Operand,
) -> Result<Operand, NoMemory>
    requires first { port.height < 2 ^ 63 }
    requires second { value.height < 2 ^ 63 }
    ensures { IfOk result (λ x. x ≡ made.port_write word.now port value) }
{
    let height = port.height.max(value.height) + 1;
    let (first, second) = boxed_pair(alloc, port.expr, value.expr)?;
    Ok(Operand {
        expr: Expr::PortWrite(first, second, word.pos),
        from: word.pos,
        level: level::POSTFIX,
        height,
    })
}
