//! Reading statements that no statement stands in, and the parts of others.

ghost use Rattle.std.specs.Prelude.{◌≡◌, ◌<◌, ◌^◌, ℕ};
ghost use Rattle.nesc_tree.specs.Phrase as phrase;
ghost use Rattle.nesc_tree.specs.Sorts.{ahead};
ghost use Rattle.nesc_tree.specs.declared.sorts.Sort.TheVariants as sorts;
ghost use Rattle.nesc_grammar.specs.Grammar as grammar;
ghost use Rattle.nesc_grammar.specs.Statements as spec;
ghost use Rattle.nesc_parse_types.specs.Gives.{Gives, form_in};
ghost use Rattle.nesc_simple_stmts.specs.Parts as parts;

use crate::heads::ForTests;
use crate::parts::{
    break_stmt, continue_stmt, empty_stmt, eval_start, eval_stmt, return_stmt, tests_of,
};
use nesc_operands::precedence::begins_expr;
use nesc_parse_exprs::expr;
use nesc_parse_types::{Found, Stop, expect};
use nesc_tree::{ForStart, Jumps, Operand, Sort, Stmt, TypeNames, ahead, level};
use nm_base::{Token, beside};
use std::alloc::Global;

fn may_break(jumps: Jumps) -> bool
    ensures { result ≡ phrase.may_break jumps }
{
    matches!(jumps, Jumps::Break | Jumps::BreakAndContinue)
}

fn may_continue(jumps: Jumps) -> bool
    ensures { result ≡ phrase.may_continue jumps }
{
    matches!(jumps, Jumps::BreakAndContinue)
}

/// The jumps that may stand in the body of a `switch`.
pub fn in_switch(jumps: Jumps) -> Jumps
    ensures { result ≡ spec.in_switch jumps }
{
    match jumps {
        Jumps::Neither => Jumps::Break,
        _ => jumps,
    }
}

/// Whether a label of a `switch` begins with a token of this sort.
pub fn begins_label(first: Sort) -> bool
    ensures { result ≡ phrase.begins_label first }
{
    matches!(first, Sort::Case | Sort::Default)
}

/// Whether a statement without a label begins with a token of this sort.
pub fn begins_stmt(jumps: Jumps, first: Sort) -> bool
    ensures { result ≡ phrase.begins_stmt jumps first }
{
    match first {
        Sort::LBrace
        | Sort::Semi
        | Sort::Atomic
        | Sort::If
        | Sort::While
        | Sort::Do
        | Sort::For
        | Sort::Switch
        | Sort::Return => true,
        Sort::Break => may_break(jumps),
        Sort::Continue => may_continue(jumps),
        _ => begins_expr(first),
    }
}

/// Whether a label begins with a token of this sort, where labels may stand.
pub fn is_label(labels: bool, first: Sort) -> bool
    ensures { result ≡ parts.is_label labels first }
{
    labels && begins_label(first)
}

/// Whether every statement that begins with a token of this sort has another level.
pub fn deepens(first: Sort) -> bool
    ensures { result ≡ parts.deepens first }
{
    matches!(
        first,
        Sort::Atomic | Sort::If | Sort::While | Sort::Do | Sort::For | Sort::Switch
    )
}

#[tactic(auto, unfolding(nesc_tree::specs::Reading::read))]
pub fn empty<'a>(names: &TypeNames, ts: &'a [Token]) -> Found<'a, Stmt>
    ensures { (spare : ℕ) → Gives names.now result (form_in spare spec.empty_stmt names.now ts.now) }
{
    let (sign, rest) = expect(names, Sort::Semi, ts)?;
    Ok((empty_stmt(sign), rest))
}

#[tactic(auto, unfolding(nesc_tree::specs::Reading::read))]
pub fn break_out<'a>(names: &TypeNames, jumps: Jumps, ts: &'a [Token]) -> Found<'a, Stmt>
    ensures { (spare : ℕ) → Gives names.now result (form_in spare (parts.break_in jumps) names.now ts.now) }
{
    if !may_break(jumps) {
        return Err(Stop::Syntax(ts));
    }
    let (word, rest) = expect(names, Sort::Break, ts)?;
    let (_, rest) = expect(names, Sort::Semi, rest)?;
    Ok((break_stmt(word), rest))
}

#[tactic(auto, unfolding(nesc_tree::specs::Reading::read))]
pub fn go_on<'a>(names: &TypeNames, jumps: Jumps, ts: &'a [Token]) -> Found<'a, Stmt>
    ensures { (spare : ℕ) → Gives names.now result (form_in spare (parts.continue_in jumps) names.now ts.now) }
{
    if !may_continue(jumps) {
        return Err(Stop::Syntax(ts));
    }
    let (word, rest) = expect(names, Sort::Continue, ts)?;
    let (_, rest) = expect(names, Sort::Semi, rest)?;
    Ok((continue_stmt(word), rest))
}

/// An expression of at least this level, and the sign that ends it.
#[tactic(auto, unfolding(nesc_tree::specs::Reading::read))]
fn expr_before<'a>(
    alloc: Global,
    names: &TypeNames,
    spare: usize,
    least: u8,
    end: Sort,
    ts: &'a [Token],
) -> Found<'a, Operand>
    requires { spare < 2 ^ 8 }
    ensures { Gives names.now result (form_in spare (grammar.before (grammar.expr least) (grammar.one end)) names.now ts.now) }
{
    let (value, rest) = expr(alloc, names, spare, least, ts)?;
    let (value, (_, rest)) = beside(value, expect(names, end, rest))?;
    Ok((value, rest))
}

/// An expression statement.
#[tactic(auto, unfolding(nesc_tree::specs::Reading::read))]
pub fn eval<'a>(alloc: Global, names: &TypeNames, spare: usize, ts: &'a [Token]) -> Found<'a, Stmt>
    requires { spare < 2 ^ 8 }
    ensures { Gives names.now result (form_in spare (parts.eval_at (ahead names.now ts.now)) names.now ts.now) }
{
    if !begins_expr(ahead(names, ts)) {
        return Err(Stop::Syntax(ts));
    }
    let (value, rest) = expr(alloc, names, spare, level::COMMA, ts)?;
    let (value, (_, rest)) = beside(value, expect(names, Sort::Semi, rest))?;
    Ok((eval_stmt(value), rest))
}

/// An expression, where one begins.
fn some_expr<'a>(
    alloc: Global,
    names: &TypeNames,
    spare: usize,
    ts: &'a [Token],
) -> Found<'a, Option<Operand>>
    requires { spare < 2 ^ 8 }
    ensures { Gives names.now result (form_in spare spec.some_expr names.now ts.now) }
{
    if begins_expr(ahead(names, ts)) {
        let (found, rest) = expr(alloc, names, spare, level::COMMA, ts)?;
        Ok((Some(found), rest))
    } else {
        Ok((None, ts))
    }
}

/// An expression, where one begins, and the sign that ends it.
#[tactic(auto, unfolding(nesc_tree::specs::Reading::read))]
fn ended_expr<'a>(
    alloc: Global,
    names: &TypeNames,
    spare: usize,
    end: Sort,
    ts: &'a [Token],
) -> Found<'a, Option<Operand>>
    requires { spare < 2 ^ 8 }
    ensures { Gives names.now result (form_in spare (parts.ended_expr end) names.now ts.now) }
{
    let (found, rest) = some_expr(alloc, names, spare, ts)?;
    let (found, (_, rest)) = beside(found, expect(names, end, rest))?;
    Ok((found, rest))
}

#[tactic(auto, unfolding(nesc_tree::specs::Reading::read))]
pub fn give_answer<'a>(
    alloc: Global,
    names: &TypeNames,
    spare: usize,
    ts: &'a [Token],
) -> Found<'a, Stmt>
    requires { spare < 2 ^ 8 }
    ensures { Gives names.now result (form_in spare spec.return_stmt names.now ts.now) }
{
    let (word, rest) = expect(names, Sort::Return, ts)?;
    let (value, rest) = ended_expr(alloc, names, spare, Sort::Semi, rest)?;
    Ok((return_stmt(word, value), rest))
}

/// A condition between its parentheses.
#[tactic(auto, unfolding(nesc_tree::specs::Reading::read))]
pub fn condition<'a>(
    alloc: Global,
    names: &TypeNames,
    spare: usize,
    ts: &'a [Token],
) -> Found<'a, Operand>
    requires { spare < 2 ^ 8 }
    ensures { Gives names.now result (form_in spare spec.condition names.now ts.now) }
{
    let (_, rest) = expect(names, Sort::LParen, ts)?;
    expr_before(alloc, names, spare, level::COMMA, Sort::RParen, rest)
}

/// What stands behind the body of a `do`.
#[tactic(auto, unfolding(nesc_tree::specs::Reading::read))]
pub fn do_test<'a>(
    alloc: Global,
    names: &TypeNames,
    spare: usize,
    ts: &'a [Token],
) -> Found<'a, Operand>
    requires { spare < 2 ^ 8 }
    ensures { Gives names.now result (form_in spare parts.do_test names.now ts.now) }
{
    let (_, rest) = expect(names, Sort::While, ts)?;
    let (value, rest) = condition(alloc, names, spare, rest)?;
    let (value, (_, rest)) = beside(value, expect(names, Sort::Semi, rest))?;
    Ok((value, rest))
}

/// The value of a label, and its colon.
#[tactic(auto, unfolding(nesc_tree::specs::Reading::read))]
pub fn case_value<'a>(
    alloc: Global,
    names: &TypeNames,
    spare: usize,
    ts: &'a [Token],
) -> Found<'a, Operand>
    requires { spare < 2 ^ 8 }
    ensures { Gives names.now result (form_in spare parts.case_value names.now ts.now) }
{
    expr_before(alloc, names, spare, level::CONDITIONAL, Sort::Colon, ts)
}

/// The test and the step of a `for`, with the signs behind them.
#[tactic(auto, unfolding(nesc_tree::specs::Reading::read))]
pub fn for_tests<'a>(
    alloc: Global,
    names: &TypeNames,
    spare: usize,
    ts: &'a [Token],
) -> Found<'a, ForTests>
    requires { spare < 2 ^ 8 }
    ensures { Gives names.now result (form_in spare parts.for_tests names.now ts.now) }
{
    let (test, rest) = ended_expr(alloc, names, spare, Sort::Semi, ts)?;
    let step = ended_expr(alloc, names, spare, Sort::RParen, rest);
    let (test, (step, rest)) = beside(test, step)?;
    Ok((tests_of(test, step), rest))
}

/// The expression that a `for` begins with.
#[tactic(auto, unfolding(nesc_tree::specs::Reading::read))]
pub fn value_start<'a>(
    alloc: Global,
    names: &TypeNames,
    spare: usize,
    ts: &'a [Token],
) -> Found<'a, ForStart>
    requires { spare < 2 ^ 8 }
    ensures { Gives names.now result (form_in spare (parts.value_start_at (ahead names.now ts.now)) names.now ts.now) }
{
    if !begins_expr(ahead(names, ts)) {
        return Err(Stop::Syntax(ts));
    }
    let (value, rest) = expr_before(alloc, names, spare, level::COMMA, Sort::Semi, ts)?;
    Ok((eval_start(value), rest))
}

/// The sign alone.
#[tactic(auto, unfolding(nesc_tree::specs::Reading::read))]
pub fn no_start<'a>(names: &TypeNames, ts: &'a [Token]) -> Found<'a, ForStart>
    ensures { (spare : ℕ) → Gives names.now result (form_in spare (spec.for_start_of sorts.Semi) names.now ts.now) }
{
    let (_, rest) = expect(names, Sort::Semi, ts)?;
    Ok((ForStart::Nothing, rest))
}
