//! Operands that grow out of the operand before them, with one equation each.

ghost use Rattle.std.specs.Prelude.{◌≡◌, ◌<◌, ◌^◌, IfOk, Option, None, Some, max, [], ◌∷◌, ◌++◌};
ghost use Rattle.nesc_tree.specs.declared.tree.Expr.TheVariants as e;
ghost use Rattle.nesc_tree.specs.Level as levels;
ghost use Rattle.nesc_grammar.specs.Grammar as spec;
ghost use Rattle.nesc_operands.specs.Operands as made;

use crate::boxes::{boxed_and_named, boxed_pair, boxed_three};
use crate::operators::is_spelled;
use nesc_tree::{Arguments, Expr, InOp, Operand, PostOp, level};
use nm_base::{Boxed, List, Name, NoMemory, Token, beside};
use std::alloc::Global;

pub fn binary_operand(
    alloc: Global,
    op: InOp,
    binds: u8,
    left: Operand,
    right: Operand,
) -> Result<Operand, NoMemory>
    requires first { left.height < 2 ^ 63 }
    requires second { right.height < 2 ^ 63 }
    ensures { IfOk result (λ x. x ≡ spec.grown (spec.growth binds right.height (λ a from. e.Binary op a right.expr from)) left) }
{
    let height = left.height.max(right.height) + 1;
    let (first, second) = boxed_pair(alloc, left.expr, right.expr)?;
    Ok(Operand {
        expr: Expr::Binary(op, first, second, left.from),
        from: left.from,
        level: binds,
        height,
    })
}

pub fn comma_operand(alloc: Global, left: Operand, right: Operand) -> Result<Operand, NoMemory>
    requires first { left.height < 2 ^ 63 }
    requires second { right.height < 2 ^ 63 }
    ensures { IfOk result (λ x. x ≡ spec.grown (spec.growth levels.comma right.height (λ a from. e.Comma a right.expr from)) left) }
{
    let height = left.height.max(right.height) + 1;
    let (first, second) = boxed_pair(alloc, left.expr, right.expr)?;
    Ok(Operand {
        expr: Expr::Comma(first, second, left.from),
        from: left.from,
        level: level::COMMA,
        height,
    })
}

/// None is the operator of `=`.
pub fn assign_operand(
    alloc: Global,
    op: Option<InOp>,
    left: Operand,
    right: Operand,
) -> Result<Operand, NoMemory>
    requires first { left.height < 2 ^ 63 }
    requires second { right.height < 2 ^ 63 }
    ensures { IfOk result (λ x. x ≡ spec.grown (spec.growth levels.assignment right.height (λ a from. e.Assign op a right.expr from)) left) }
{
    let height = left.height.max(right.height) + 1;
    let (first, second) = boxed_pair(alloc, left.expr, right.expr)?;
    Ok(Operand {
        expr: Expr::Assign(op, first, second, left.from),
        from: left.from,
        level: level::ASSIGNMENT,
        height,
    })
}

pub fn choice_operand(
    alloc: Global,
    test: Operand,
    then: Operand,
    otherwise: Operand,
) -> Result<Operand, NoMemory>
    requires first { test.height < 2 ^ 63 }
    requires second { then.height < 2 ^ 63 }
    requires third { otherwise.height < 2 ^ 63 }
    ensures { IfOk result (λ x. x ≡ made.choice test then otherwise) }
{
    let height = test.height.max(then.height.max(otherwise.height)) + 1;
    let ((first, second), third) = boxed_three(alloc, (test.expr, then.expr), otherwise.expr)?;
    Ok(Operand {
        expr: Expr::Cond(first, second, third, test.from),
        from: test.from,
        level: level::CONDITIONAL,
        height,
    })
}

pub fn index_operand(alloc: Global, left: Operand, index: Operand) -> Result<Operand, NoMemory>
    requires first { left.height < 2 ^ 63 }
    requires second { index.height < 2 ^ 63 }
    ensures { IfOk result (λ x. x ≡ spec.grown (spec.growth levels.postfix index.height (λ a from. e.Index a index.expr from)) left) }
{
    let height = left.height.max(index.height) + 1;
    let (first, second) = boxed_pair(alloc, left.expr, index.expr)?;
    Ok(Operand {
        expr: Expr::Index(first, second, left.from),
        from: left.from,
        level: level::POSTFIX,
        height,
    })
}

pub fn call_operand(alloc: Global, left: Operand, arguments: Arguments) -> Result<Operand, NoMemory>
    requires first { left.height < 2 ^ 63 }
    requires second { arguments.height < 2 ^ 63 }
    ensures { IfOk result (λ x. x ≡ spec.grown (spec.growth levels.postfix arguments.height (λ a from. e.CallFn a arguments.exprs from)) left) }
{
    let height = left.height.max(arguments.height) + 1;
    let (exprs, first) = beside(arguments.exprs, Boxed::new(alloc, left.expr))?;
    Ok(Operand {
        expr: Expr::CallFn(first, exprs, left.from),
        from: left.from,
        level: level::POSTFIX,
        height,
    })
}

pub fn member_operand(alloc: Global, left: Operand, member: &Token) -> Result<Operand, NoMemory>
    requires { left.height < 2 ^ 63 }
    ensures { IfOk result (λ x. x ≡ spec.grown (spec.growth levels.postfix 0 (λ a from. e.Member a member.now.text from)) left) }
{
    let height = left.height + 1;
    let (first, name) = boxed_and_named(alloc, left.expr, member)?;
    Ok(Operand {
        expr: Expr::Member(first, name, left.from),
        from: left.from,
        level: level::POSTFIX,
        height,
    })
}

pub fn arrow_operand(alloc: Global, left: Operand, member: &Token) -> Result<Operand, NoMemory>
    requires { left.height < 2 ^ 63 }
    ensures { IfOk result (λ x. x ≡ spec.grown (spec.growth levels.postfix 0 (λ a from. e.Arrow a member.now.text from)) left) }
{
    let height = left.height + 1;
    let (first, name) = boxed_and_named(alloc, left.expr, member)?;
    Ok(Operand {
        expr: Expr::Arrow(first, name, left.from),
        from: left.from,
        level: level::POSTFIX,
        height,
    })
}

pub fn postfix_operand(alloc: Global, op: PostOp, left: Operand) -> Result<Operand, NoMemory>
    requires { left.height < 2 ^ 63 }
    ensures { IfOk result (λ x. x ≡ spec.grown (spec.growth levels.postfix 0 (λ a from. e.Postfix op a from)) left) }
{
    let height = left.height + 1;
    let first = Boxed::new(alloc, left.expr)?;
    Ok(Operand {
        expr: Expr::Postfix(op, first, left.from),
        from: left.from,
        level: level::POSTFIX,
        height,
    })
}

// ---- arguments

pub fn no_arguments(alloc: Global) -> Arguments
    ensures { result ≡ spec.no_arguments }
{
    Arguments {
        exprs: List::new(Vec::new(alloc)),
        height: 0,
    }
}

pub fn single(alloc: Global, a: Operand) -> Result<Arguments, NoMemory>
    ensures { IfOk result (λ l. l ≡ spec.single a) }
{
    let height = a.height;
    Ok(Arguments {
        exprs: List::new(vec![in alloc; a.expr]?),
        height,
    })
}

/// The arguments with one more at the end.
pub fn pushed(a: Operand, arguments: Arguments) -> Result<Arguments, NoMemory>
    ensures { IfOk result (λ l. l ≡ spec.pushed a arguments) }
{
    let height = arguments.height.max(a.height);
    let mut exprs = arguments.exprs.into_vec();
    exprs.push(a.expr)?;
    Ok(Arguments {
        exprs: List::new(exprs),
        height,
    })
}

fn param_height(param: &Option<Operand>) -> usize
    ensures { result ≡ spec.height_of param.now }
{
    match param {
        None => 0,
        Some(a) => a.height,
    }
}

fn param_value(alloc: Global, param: Option<Operand>) -> Result<Option<Boxed<Expr>>, NoMemory>
    ensures { IfOk result (λ v. v ≡ spec.value_of param) }
{
    match param {
        None => Ok(None),
        Some(a) => Ok(Some(Boxed::new(alloc, a.expr)?)),
    }
}

/// Whether the word is `signal`, and not `call`.
#[tactic(auto, unfolding(nesc_grammar::specs::Grammar::is_signal))]
fn is_signal(word: &Token) -> bool
    ensures { result ≡ spec.is_signal word.now }
{
    is_spelled(word, b"signal")
}

/// The names of an element and of its item.
fn item_names(alloc: Global, element: &Token, item: &Token) -> Result<(Name, Name), NoMemory>
    ensures { IfOk result (λ names. names ≡ (element.now.text, item.now.text)) }
{
    let element = Name::new(alloc, element.text.as_bytes())?;
    beside(element, Name::new(alloc, item.text.as_bytes()))
}

/// What an item is called by: its parameter, and the names of its element and itself.
fn called_by(
    alloc: Global,
    param: Option<Operand>,
    element: &Token,
    item: &Token,
) -> Result<(Option<Boxed<Expr>>, (Name, Name)), NoMemory>
    ensures { IfOk result (λ called. called ≡ (spec.value_of param, (element.now.text, item.now.text))) }
{
    let param = param_value(alloc, param)?;
    beside(param, item_names(alloc, element, item))
}

/// `call` or `signal` of an item.
pub fn item_operand(
    alloc: Global,
    param: Option<Operand>,
    arguments: Arguments,
    item: &Token,
    element: &Token,
    word: &Token,
) -> Result<Operand, NoMemory>
    requires first { spec.height_of param < 2 ^ 63 }
    requires second { arguments.height < 2 ^ 63 }
    ensures { IfOk result (λ x. x ≡ spec.call_operand param arguments item.now element.now word.now) }
{
    let height = param_height(&param).max(arguments.height) + 1;
    let signal = is_signal(word);
    let (args, (param, (element, item))) = beside(
        arguments.exprs,
        called_by(alloc, param, element, item),
    )?;
    Ok(Operand {
        expr: Expr::CallItem {
            signal,
            element,
            item,
            param,
            args,
            pos: word.pos,
        },
        from: word.pos,
        level: level::POSTFIX,
        height,
    })
}
