//! Reading statements (C99 6.8).

ghost use Rattle.std.specs.Prelude.{◌≡◌, ◌<◌, ◌^◌, true};
ghost use Rattle.nesc_tree.specs.Changes.{all_taken_back};
ghost use Rattle.nesc_grammar.specs.Grammar as grammar;
ghost use Rattle.nesc_grammar.specs.Statements as spec;
ghost use Rattle.nesc_parse_types.specs.Gives.{Gives, form_in};
ghost use Rattle.nesc_simple_stmts.specs.Parts as parts;
ghost use Rattle.nesc_parse_stmts.specs.Stmts.{cases_in, label_in, stmt_in};

use crate::for_heads::{for_head, for_with};
use nesc_declarators::{begins_local, local};
use nesc_parse_decls::{added, no_list};
use nesc_parse_exprs::refused;
use nesc_parse_types::{Found, Stop, expect};
use nesc_scopes::give_back;
use nesc_simple_stmts::{
    atomic_stmt, begins_label, begins_stmt, block_stmt, boxed, break_out, case_stmt, case_value,
    condition, deepens, default_stmt, do_stmt, do_test, empty, eval, give_answer, go_on, if_stmt,
    in_switch, is_label, switch_stmt, while_stmt,
};
use nesc_tree::{Change, Jumps, Operand, Sort, Stmt, TypeNames, ahead, same_sort};
use nm_base::{Boxed, List, Token, beside};
use std::alloc::Global;

// Whether what stands in a block begins with a token of this sort, where labels may stand or may not.
fn begins_item(labels: bool, jumps: Jumps, first: Sort) -> bool
    ensures { result ≡ parts.begins_item labels jumps first }
{
    is_label(labels, first) || begins_local(first) || begins_stmt(jumps, first)
}

/// A statement with at most `levels` levels; `jumps` tells which of `break` and `continue` may stand in it.
/// After it, and after a refusal, the names are what they were before it.
#[cycle(statements)]
pub fn stmt<'a>(
    alloc: Global,
    names: &mut TypeNames,
    levels: usize,
    jumps: Jumps,
    ts: &'a [Token],
) -> Found<'a, Stmt>
    requires { levels < 2 ^ 8 }
    ensures gives { Gives names.old result (stmt_in levels jumps names.old ts.now) }
    ensures back { names.new ≡ names.old }
{
    if levels == 0 {
        return Err(refused(begins_stmt(jumps, ahead(names, ts)), ts));
    }
    statement(alloc, names, levels - 1, jumps, ts)
}

/// A statement by its first token.
#[cycle(statements)]
fn statement<'a>(
    alloc: Global,
    names: &mut TypeNames,
    spare: usize,
    jumps: Jumps,
    ts: &'a [Token],
) -> Found<'a, Stmt>
    requires { spare < 2 ^ 8 }
    ensures gives { Gives names.old result (form_in spare (parts.statement jumps) names.old ts.now) }
    ensures back { names.new ≡ names.old }
{
    let first = ahead(names, ts);
    if deepens(first) {
        if spare == 0 {
            return Err(Stop::Deep(ts));
        }
        return deeper(alloc, names, spare, first, jumps, ts);
    }
    match first {
        Sort::LBrace => block(alloc, names, spare, false, jumps, ts),
        Sort::Semi => empty(names, ts),
        Sort::Break => break_out(names, jumps, ts),
        Sort::Continue => go_on(names, jumps, ts),
        Sort::Return => give_answer(alloc, names, spare, ts),
        _ => eval(alloc, names, spare, ts),
    }
}

/// A statement with statements in it, but for a block.
#[cycle(statements)]
fn deeper<'a>(
    alloc: Global,
    names: &mut TypeNames,
    spare: usize,
    first: Sort,
    jumps: Jumps,
    ts: &'a [Token],
) -> Found<'a, Stmt>
    requires few { spare < 2 ^ 8 }
    requires room { 0 < spare }
    requires known { parts.deepens first ≡ true }
    ensures gives { Gives names.old result (form_in spare (spec.statement jumps first) names.old ts.now) }
    ensures back { names.new ≡ names.old }
{
    match first {
        Sort::Atomic => atomic(alloc, names, spare, jumps, ts),
        Sort::If => if_else(alloc, names, spare, jumps, ts),
        Sort::While => while_loop(alloc, names, spare, ts),
        Sort::Do => do_loop(alloc, names, spare, ts),
        Sort::For => for_loop(alloc, names, spare, ts),
        _ => switch(alloc, names, spare, jumps, ts),
    }
}

/// A statement in another one.
#[cycle(statements)]
#[tactic(auto, unfolding(nesc_tree::specs::Reading::read))]
fn inner<'a>(
    alloc: Global,
    names: &mut TypeNames,
    spare: usize,
    jumps: Jumps,
    ts: &'a [Token],
) -> Found<'a, Boxed<Stmt>>
    requires { spare < 2 ^ 8 }
    ensures gives { Gives names.old result (form_in spare (spec.stmt jumps) names.old ts.now) }
    ensures back { names.new ≡ names.old }
{
    let (body, rest) = stmt(alloc, names, spare, jumps, ts)?;
    Ok((boxed(alloc, body)?, rest))
}

#[cycle(statements)]
#[tactic(auto, unfolding(nesc_tree::specs::Reading::read))]
fn atomic<'a>(
    alloc: Global,
    names: &mut TypeNames,
    spare: usize,
    jumps: Jumps,
    ts: &'a [Token],
) -> Found<'a, Stmt>
    requires { spare < 2 ^ 8 }
    ensures gives { Gives names.old result (form_in spare (spec.atomic_stmt jumps) names.old ts.now) }
    ensures back { names.new ≡ names.old }
{
    let (word, rest) = expect(names, Sort::Atomic, ts)?;
    let (body, rest) = inner(alloc, names, spare, jumps, rest)?;
    Ok((atomic_stmt(word, body), rest))
}

/// An `else` and the statement behind it.
#[cycle(statements)]
#[tactic(auto, unfolding(nesc_tree::specs::Reading::read))]
fn some_else<'a>(
    alloc: Global,
    names: &mut TypeNames,
    spare: usize,
    jumps: Jumps,
    ts: &'a [Token],
) -> Found<'a, Option<Boxed<Stmt>>>
    requires { spare < 2 ^ 8 }
    ensures gives { Gives names.old result (form_in spare (parts.some_else jumps) names.old ts.now) }
    ensures back { names.new ≡ names.old }
{
    let (_, rest) = expect(names, Sort::Else, ts)?;
    let (other, rest) = inner(alloc, names, spare, jumps, rest)?;
    Ok((Some(other), rest))
}

/// The statement behind an `else`, where one is there.
#[cycle(statements)]
fn otherwise<'a>(
    alloc: Global,
    names: &mut TypeNames,
    spare: usize,
    jumps: Jumps,
    ts: &'a [Token],
) -> Found<'a, Option<Boxed<Stmt>>>
    requires few { spare < 2 ^ 8 }
    requires room { 0 < spare }
    ensures gives { Gives names.old result (form_in spare (parts.otherwise jumps) names.old ts.now) }
    ensures back { names.new ≡ names.old }
{
    if same_sort(Sort::Else, ahead(names, ts)) {
        some_else(alloc, names, spare, jumps, ts)
    } else {
        Ok((None, ts))
    }
}

/// What is behind the condition of an `if`.
#[cycle(statements)]
#[tactic(auto, unfolding(nesc_tree::specs::Reading::read))]
fn choice<'a>(
    alloc: Global,
    names: &mut TypeNames,
    spare: usize,
    jumps: Jumps,
    word: &Token,
    test: Operand,
    ts: &'a [Token],
) -> Found<'a, Stmt>
    requires few { spare < 2 ^ 8 }
    requires room { 0 < spare }
    ensures gives { Gives names.old result (form_in spare (parts.choice jumps word.now test) names.old ts.now) }
    ensures back { names.new ≡ names.old }
{
    let then = inner(alloc, names, spare, jumps, ts);
    let (test, (then, rest)) = beside(test, then)?;
    let other = otherwise(alloc, names, spare, jumps, rest);
    let (test, (then, (other, rest))) = beside(test, beside(then, other))?;
    Ok((if_stmt(word, test, then, other), rest))
}

#[cycle(statements)]
#[tactic(auto, unfolding(nesc_tree::specs::Reading::read))]
fn if_else<'a>(
    alloc: Global,
    names: &mut TypeNames,
    spare: usize,
    jumps: Jumps,
    ts: &'a [Token],
) -> Found<'a, Stmt>
    requires few { spare < 2 ^ 8 }
    requires room { 0 < spare }
    ensures gives { Gives names.old result (form_in spare (spec.if_stmt jumps) names.old ts.now) }
    ensures back { names.new ≡ names.old }
{
    let (word, rest) = expect(names, Sort::If, ts)?;
    let (test, rest) = condition(alloc, names, spare, rest)?;
    choice(alloc, names, spare, jumps, word, test, rest)
}

#[cycle(statements)]
#[tactic(auto, unfolding(nesc_tree::specs::Reading::read))]
fn while_loop<'a>(
    alloc: Global,
    names: &mut TypeNames,
    spare: usize,
    ts: &'a [Token],
) -> Found<'a, Stmt>
    requires { spare < 2 ^ 8 }
    ensures gives { Gives names.old result (form_in spare spec.while_stmt names.old ts.now) }
    ensures back { names.new ≡ names.old }
{
    let (word, rest) = expect(names, Sort::While, ts)?;
    let (test, rest) = condition(alloc, names, spare, rest)?;
    let body = inner(alloc, names, spare, Jumps::BreakAndContinue, rest);
    let (test, (body, rest)) = beside(test, body)?;
    Ok((while_stmt(word, test, body), rest))
}

#[cycle(statements)]
#[tactic(auto, unfolding(nesc_tree::specs::Reading::read))]
fn do_loop<'a>(
    alloc: Global,
    names: &mut TypeNames,
    spare: usize,
    ts: &'a [Token],
) -> Found<'a, Stmt>
    requires { spare < 2 ^ 8 }
    ensures gives { Gives names.old result (form_in spare spec.do_stmt names.old ts.now) }
    ensures back { names.new ≡ names.old }
{
    let (word, rest) = expect(names, Sort::Do, ts)?;
    let (body, rest) = inner(alloc, names, spare, Jumps::BreakAndContinue, rest)?;
    let test = do_test(alloc, names, spare, rest);
    let (body, (test, rest)) = beside(body, test)?;
    Ok((do_stmt(word, body, test), rest))
}

/// The body of a `switch`: only in a block may labels stand.
#[cycle(statements)]
fn switch_body<'a>(
    alloc: Global,
    names: &mut TypeNames,
    spare: usize,
    jumps: Jumps,
    ts: &'a [Token],
) -> Found<'a, Stmt>
    requires { spare < 2 ^ 8 }
    ensures gives { Gives names.old result (form_in spare (parts.switch_body jumps) names.old ts.now) }
    ensures back { names.new ≡ names.old }
{
    match ahead(names, ts) {
        Sort::LBrace => cases(alloc, names, spare, in_switch(jumps), ts),
        _ => stmt(alloc, names, spare, in_switch(jumps), ts),
    }
}

/// The body of a `switch` in its box.
#[cycle(statements)]
fn boxed_switch_body<'a>(
    alloc: Global,
    names: &mut TypeNames,
    spare: usize,
    jumps: Jumps,
    ts: &'a [Token],
) -> Found<'a, Boxed<Stmt>>
    requires { spare < 2 ^ 8 }
    ensures gives { Gives names.old result (form_in spare (parts.switch_body jumps) names.old ts.now) }
    ensures back { names.new ≡ names.old }
{
    let (body, rest) = switch_body(alloc, names, spare, jumps, ts)?;
    Ok((boxed(alloc, body)?, rest))
}

#[cycle(statements)]
#[tactic(auto, unfolding(nesc_tree::specs::Reading::read))]
fn switch<'a>(
    alloc: Global,
    names: &mut TypeNames,
    spare: usize,
    jumps: Jumps,
    ts: &'a [Token],
) -> Found<'a, Stmt>
    requires { spare < 2 ^ 8 }
    ensures gives { Gives names.old result (form_in spare (spec.switch_stmt jumps) names.old ts.now) }
    ensures back { names.new ≡ names.old }
{
    let (word, rest) = expect(names, Sort::Switch, ts)?;
    let (value, rest) = condition(alloc, names, spare, rest)?;
    let body = boxed_switch_body(alloc, names, spare, jumps, rest);
    let (value, (body, rest)) = beside(value, body)?;
    Ok((switch_stmt(word, value, body), rest))
}

/// The block that is the body of a `switch`, with at most `levels` levels.
#[cycle(statements)]
fn cases<'a>(
    alloc: Global,
    names: &mut TypeNames,
    levels: usize,
    jumps: Jumps,
    ts: &'a [Token],
) -> Found<'a, Stmt>
    requires { levels < 2 ^ 8 }
    ensures gives { Gives names.old result (cases_in levels jumps names.old ts.now) }
    ensures back { names.new ≡ names.old }
{
    if levels == 0 {
        return Err(refused(same_sort(Sort::LBrace, ahead(names, ts)), ts));
    }
    block(alloc, names, levels - 1, true, jumps, ts)
}

/// A statement with labels, with at most `levels` levels; it has two at least.
#[cycle(statements)]
fn label<'a>(
    alloc: Global,
    names: &mut TypeNames,
    levels: usize,
    jumps: Jumps,
    ts: &'a [Token],
) -> Found<'a, Stmt>
    requires { levels < 2 ^ 8 }
    ensures gives { Gives names.old result (label_in levels jumps names.old ts.now) }
    ensures back { names.new ≡ names.old }
{
    let first = ahead(names, ts);
    if levels < 2 {
        return Err(refused(begins_label(first), ts));
    }
    match first {
        Sort::Case => case(alloc, names, levels - 1, jumps, ts),
        Sort::Default => default(alloc, names, levels - 1, jumps, ts),
        _ => Err(Stop::Syntax(ts)),
    }
}

/// What is directly behind a label.
#[cycle(statements)]
fn labelled<'a>(
    alloc: Global,
    names: &mut TypeNames,
    spare: usize,
    jumps: Jumps,
    ts: &'a [Token],
) -> Found<'a, Stmt>
    requires { spare < 2 ^ 8 }
    ensures gives { Gives names.old result (form_in spare (parts.labelled jumps) names.old ts.now) }
    ensures back { names.new ≡ names.old }
{
    if begins_label(ahead(names, ts)) {
        label(alloc, names, spare, jumps, ts)
    } else {
        stmt(alloc, names, spare, jumps, ts)
    }
}

/// What is directly behind a label in its box.
#[cycle(statements)]
fn boxed_labelled<'a>(
    alloc: Global,
    names: &mut TypeNames,
    spare: usize,
    jumps: Jumps,
    ts: &'a [Token],
) -> Found<'a, Boxed<Stmt>>
    requires { spare < 2 ^ 8 }
    ensures gives { Gives names.old result (form_in spare (parts.labelled jumps) names.old ts.now) }
    ensures back { names.new ≡ names.old }
{
    let (body, rest) = labelled(alloc, names, spare, jumps, ts)?;
    Ok((boxed(alloc, body)?, rest))
}

#[cycle(statements)]
#[tactic(auto, unfolding(nesc_tree::specs::Reading::read))]
fn case<'a>(
    alloc: Global,
    names: &mut TypeNames,
    spare: usize,
    jumps: Jumps,
    ts: &'a [Token],
) -> Found<'a, Stmt>
    requires { spare < 2 ^ 8 }
    ensures gives { Gives names.old result (form_in spare (spec.case_stmt jumps) names.old ts.now) }
    ensures back { names.new ≡ names.old }
{
    let (word, rest) = expect(names, Sort::Case, ts)?;
    let (value, rest) = case_value(alloc, names, spare, rest)?;
    let body = boxed_labelled(alloc, names, spare, jumps, rest);
    let (value, (body, rest)) = beside(value, body)?;
    Ok((case_stmt(word, value, body), rest))
}

#[cycle(statements)]
#[tactic(auto, unfolding(nesc_tree::specs::Reading::read))]
fn default<'a>(
    alloc: Global,
    names: &mut TypeNames,
    spare: usize,
    jumps: Jumps,
    ts: &'a [Token],
) -> Found<'a, Stmt>
    requires { spare < 2 ^ 8 }
    ensures gives { Gives names.old result (form_in spare (spec.default_stmt jumps) names.old ts.now) }
    ensures back { names.new ≡ names.old }
{
    let (word, rest) = expect(names, Sort::Default, ts)?;
    let (_, rest) = expect(names, Sort::Colon, rest)?;
    let (body, rest) = boxed_labelled(alloc, names, spare, jumps, rest)?;
    Ok((default_stmt(word, body), rest))
}
/// What stands in a block, where labels of a `switch` may stand or may not.
#[cycle(statements)]
fn item<'a>(
    alloc: Global,
    names: &mut TypeNames,
    changes: &mut Vec<Change>,
    spare: usize,
    labels: bool,
    jumps: Jumps,
    ts: &'a [Token],
) -> Found<'a, Stmt>
    requires { spare < 2 ^ 8 }
    ensures gives { Gives names.new result (form_in spare (parts.item labels jumps) names.old ts.now) }
    ensures noted { all_taken_back changes.new.items names.new ≡ all_taken_back changes.old.items names.old }
{
    let first = ahead(names, ts);
    if is_label(labels, first) {
        return label(alloc, names, spare, jumps, ts);
    }
    if begins_local(first) {
        local(alloc, names, changes, spare, ts)
    } else {
        stmt(alloc, names, spare, jumps, ts)
    }
}

/// The statements of a block with one more.
#[cycle(statements)]
fn another_item<'a>(
    alloc: Global,
    names: &mut TypeNames,
    changes: &mut Vec<Change>,
    spare: usize,
    labels: bool,
    jumps: Jumps,
    so_far: List<Stmt>,
    ts: &'a [Token],
) -> Found<'a, List<Stmt>>
    requires { spare < 2 ^ 8 }
    ensures gives { Gives names.new result (form_in spare (grammar.applied so_far (parts.another_item labels jumps)) names.old ts.now) }
    ensures noted { all_taken_back changes.new.items names.new ≡ all_taken_back changes.old.items names.old }
{
    let (next, rest) = item(alloc, names, changes, spare, labels, jumps, ts)?;
    Ok((added(so_far, next)?, rest))
}

/// The statements of a block.
#[cycle(statements)]
fn items<'a>(
    alloc: Global,
    names: &mut TypeNames,
    changes: &mut Vec<Change>,
    spare: usize,
    labels: bool,
    jumps: Jumps,
    ts: &'a [Token],
) -> Found<'a, List<Stmt>>
    requires { spare < 2 ^ 8 }
    ensures gives { Gives names.new result (form_in spare (parts.items labels jumps) names.old ts.now) }
    ensures noted { all_taken_back changes.new.items names.new ≡ all_taken_back changes.old.items names.old }
{
    let mut list = no_list(alloc);
    let mut rest = ts;
    while begins_item(labels, jumps, ahead(names, rest)) {
        let (so_far, behind) = another_item(
            alloc, names, changes, spare, labels, jumps, list, rest,
        )?;
        list = so_far;
        rest = behind;
    }
    Ok((list, rest))
}

/// A block whose declared names stay.
#[cycle(statements)]
#[tactic(auto, unfolding(nesc_tree::specs::Reading::read))]
fn open_block<'a>(
    alloc: Global,
    names: &mut TypeNames,
    changes: &mut Vec<Change>,
    spare: usize,
    labels: bool,
    jumps: Jumps,
    ts: &'a [Token],
) -> Found<'a, Stmt>
    requires { spare < 2 ^ 8 }
    ensures gives { Gives names.new result (form_in spare (parts.open_block labels jumps) names.old ts.now) }
    ensures noted { all_taken_back changes.new.items names.new ≡ all_taken_back changes.old.items names.old }
{
    let (brace, rest) = expect(names, Sort::LBrace, ts)?;
    let (list, rest) = items(alloc, names, changes, spare, labels, jumps, rest)?;
    let (_, rest) = expect(names, Sort::RBrace, rest)?;
    Ok((block_stmt(brace, list), rest))
}

/// A block, where labels of a `switch` may stand at its top level or may not.
#[cycle(statements)]
fn block<'a>(
    alloc: Global,
    names: &mut TypeNames,
    spare: usize,
    labels: bool,
    jumps: Jumps,
    ts: &'a [Token],
) -> Found<'a, Stmt>
    requires { spare < 2 ^ 8 }
    ensures gives { Gives names.old result (form_in spare (parts.block labels jumps) names.old ts.now) }
    ensures back { names.new ≡ names.old }
{
    let mut changes = Vec::new(alloc);
    let found = open_block(alloc, names, &mut changes, spare, labels, jumps, ts);
    give_back(names, changes);
    found
}

/// A `for` whose declared names stay.
#[cycle(statements)]
fn open_for<'a>(
    alloc: Global,
    names: &mut TypeNames,
    changes: &mut Vec<Change>,
    spare: usize,
    ts: &'a [Token],
) -> Found<'a, Stmt>
    requires { spare < 2 ^ 8 }
    ensures gives { Gives names.new result (form_in spare parts.open_for names.old ts.now) }
    ensures noted { all_taken_back changes.new.items names.new ≡ all_taken_back changes.old.items names.old }
{
    let (head, rest) = for_head(alloc, names, changes, spare, ts)?;
    for_with(
        head,
        inner(alloc, names, spare, Jumps::BreakAndContinue, rest),
    )
}

#[cycle(statements)]
fn for_loop<'a>(
    alloc: Global,
    names: &mut TypeNames,
    spare: usize,
    ts: &'a [Token],
) -> Found<'a, Stmt>
    requires { spare < 2 ^ 8 }
    ensures gives { Gives names.old result (form_in spare spec.for_stmt names.old ts.now) }
    ensures back { names.new ≡ names.old }
{
    let mut changes = Vec::new(alloc);
    let found = open_for(alloc, names, &mut changes, spare, ts);
    give_back(names, changes);
    found
}
