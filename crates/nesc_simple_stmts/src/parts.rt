//! Statements made of their parts.

ghost use Rattle.std.specs.Prelude.{◌≡◌, IfOk, []};
ghost use Rattle.nesc_grammar.specs.Grammar.{value_of};
ghost use Rattle.nesc_tree.specs.declared.declarations.Stmt.TheVariants as variants;
ghost use Rattle.nesc_tree.specs.declared.declarations.ForStart.TheVariants as starts;
ghost use Rattle.nesc_simple_stmts.specs.Parts as parts;

use crate::heads::{ForHead, ForTests};
use nesc_tree::{Expr, ForStart, Operand, Stmt};
use nm_base::{Boxed, List, NoMemory, Token};
use std::alloc::Global;

/// A statement in a box of its own.
pub fn boxed(alloc: Global, body: Stmt) -> Result<Boxed<Stmt>, NoMemory>
    ensures { IfOk result (λ b. b ≡ body) }
{
    Ok(Boxed::new(alloc, body)?)
}

/// The expression of an operand that may be left out.
pub fn value_of(found: Option<Operand>) -> Option<Expr>
    ensures { result ≡ value_of found }
{
    match found {
        None => None,
        Some(value) => Some(value.expr),
    }
}

pub fn block_stmt(brace: &Token, list: List<Stmt>) -> Stmt
    ensures { result ≡ variants.Block list brace.now.pos }
{
    Stmt::Block(list, brace.pos)
}

pub fn empty_stmt(sign: &Token) -> Stmt
    ensures { result ≡ variants.Empty sign.now.pos }
{
    Stmt::Empty(sign.pos)
}

pub fn eval_stmt(value: Operand) -> Stmt
    ensures { result ≡ variants.Eval value.expr value.from }
{
    Stmt::Eval(value.expr, value.from)
}

pub fn break_stmt(word: &Token) -> Stmt
    ensures { result ≡ variants.Break word.now.pos }
{
    Stmt::Break(word.pos)
}

pub fn continue_stmt(word: &Token) -> Stmt
    ensures { result ≡ variants.Continue word.now.pos }
{
    Stmt::Continue(word.pos)
}

pub fn return_stmt(word: &Token, value: Option<Operand>) -> Stmt
    ensures { result ≡ variants.Return (value_of value) word.now.pos }
{
    Stmt::Return(value_of(value), word.pos)
}

pub fn atomic_stmt(word: &Token, body: Boxed<Stmt>) -> Stmt
    ensures { result ≡ variants.Atomic body word.now.pos }
{
    Stmt::Atomic(body, word.pos)
}

pub fn if_stmt(word: &Token, test: Operand, then: Boxed<Stmt>, other: Option<Boxed<Stmt>>) -> Stmt
    ensures { result ≡ variants.If test.expr then other word.now.pos }
{
    Stmt::If(test.expr, then, other, word.pos)
}

pub fn while_stmt(word: &Token, test: Operand, body: Boxed<Stmt>) -> Stmt
    ensures { result ≡ variants.While test.expr body word.now.pos }
{
    Stmt::While(test.expr, body, word.pos)
}

pub fn do_stmt(word: &Token, body: Boxed<Stmt>, test: Operand) -> Stmt
    ensures { result ≡ variants.DoWhile body test.expr word.now.pos }
{
    Stmt::DoWhile(body, test.expr, word.pos)
}

pub fn switch_stmt(word: &Token, value: Operand, body: Boxed<Stmt>) -> Stmt
    ensures { result ≡ variants.Switch value.expr body word.now.pos }
{
    Stmt::Switch(value.expr, body, word.pos)
}

pub fn case_stmt(word: &Token, value: Operand, body: Boxed<Stmt>) -> Stmt
    ensures { result ≡ variants.Case value.expr body word.now.pos }
{
    Stmt::Case(value.expr, body, word.pos)
}

pub fn default_stmt(word: &Token, body: Boxed<Stmt>) -> Stmt
    ensures { result ≡ variants.Default body word.now.pos }
{
    Stmt::Default(body, word.pos)
}

/// A `for` that begins with an expression.
pub fn eval_start(value: Operand) -> ForStart
    ensures { result ≡ starts.Eval value.expr }
{
    ForStart::Eval(value.expr)
}

pub fn tests_of(test: Option<Operand>, step: Option<Operand>) -> ForTests
    ensures { result ≡ parts.tests_of test step }
{
    ForTests {
        test: value_of(test),
        step: value_of(step),
    }
}

pub fn head_of(word: &Token, start: ForStart, tests: ForTests) -> ForHead
    ensures { result ≡ parts.head_of word.now start tests }
{
    ForHead {
        start,
        test: tests.test,
        step: tests.step,
        pos: word.pos,
    }
}

pub fn for_stmt(head: ForHead, body: Boxed<Stmt>) -> Stmt
    ensures { result ≡ variants.For head.start head.test head.step body head.pos }
{
    Stmt::For {
        start: head.start,
        test: head.test,
        step: head.step,
        body,
        pos: head.pos,
    }
}
