//! Reading what a `for` begins with, and what it is with its body.

ghost use Rattle.std.specs.Prelude.{◌≡◌, ◌<◌, ◌^◌};
ghost use Rattle.nesc_tree.specs.Changes.{all_taken_back};
ghost use Rattle.nesc_tree.specs.declared.declarations.Stmt.TheVariants as variants;
ghost use Rattle.nesc_grammar.specs.Grammar as grammar;
ghost use Rattle.nesc_parse_types.specs.Gives.{Gives, form_in};
ghost use Rattle.nesc_simple_stmts.specs.Parts as parts;
ghost use Rattle.nesc_parse_stmts.specs.Made.{MadeBy};

use nesc_declarators::for_variables;
use nesc_parse_types::{Found, begins_type, expect};
use nesc_simple_stmts::{ForHead, for_stmt, for_tests, head_of, no_start, value_start};
use nesc_tree::{Change, ForStart, Sort, Stmt, TypeNames, ahead};
use nm_base::{Boxed, Token, beside};
use std::alloc::Global;

/// What stands before the first `;` of a `for`, and this sign.
fn for_start<'a>(
    alloc: Global,
    names: &mut TypeNames,
    changes: &mut Vec<Change>,
    spare: usize,
    ts: &'a [Token],
) -> Found<'a, ForStart>
    requires { spare < 2 ^ 8 }
    ensures gives { Gives names.new result (form_in spare parts.for_start names.old ts.now) }
    ensures noted { all_taken_back changes.new.items names.new ≡ all_taken_back changes.old.items names.old }
{
    let first = ahead(names, ts);
    if begins_type(first) {
        return for_variables(alloc, names, changes, spare, ts);
    }
    match first {
        Sort::Semi => no_start(names, ts),
        _ => value_start(alloc, names, spare, ts),
    }
}

/// What stands behind the parenthesis of a `for`, up to the other one.
#[tactic(auto, unfolding(nesc_tree::specs::Reading::read))]
fn started<'a>(
    alloc: Global,
    names: &mut TypeNames,
    changes: &mut Vec<Change>,
    spare: usize,
    word: &Token,
    ts: &'a [Token],
) -> Found<'a, ForHead>
    requires { spare < 2 ^ 8 }
    ensures gives { Gives names.new result (form_in spare (grammar.applied word.now parts.started) names.old ts.now) }
    ensures noted { all_taken_back changes.new.items names.new ≡ all_taken_back changes.old.items names.old }
{
    let (start, rest) = for_start(alloc, names, changes, spare, ts)?;
    let tests = for_tests(alloc, names, spare, rest);
    let (start, (tests, rest)) = beside(start, tests)?;
    Ok((head_of(word, start, tests), rest))
}

/// `for` and what stands between its parentheses; the names that it declares stay.
#[tactic(auto, unfolding(nesc_tree::specs::Reading::read))]
pub fn for_head<'a>(
    alloc: Global,
    names: &mut TypeNames,
    changes: &mut Vec<Change>,
    spare: usize,
    ts: &'a [Token],
) -> Found<'a, ForHead>
    requires { spare < 2 ^ 8 }
    ensures gives { Gives names.new result (form_in spare parts.for_head names.old ts.now) }
    ensures noted { all_taken_back changes.new.items names.new ≡ all_taken_back changes.old.items names.old }
{
    let (word, rest) = expect(names, Sort::For, ts)?;
    let (_, rest) = expect(names, Sort::LParen, rest)?;
    started(alloc, names, changes, spare, word, rest)
}

/// The `for` with this head, where its body was found.
pub fn for_with<'a>(head: ForHead, body: Found<'a, Boxed<Stmt>>) -> Found<'a, Stmt>
    ensures { MadeBy (λ x. variants.For head.start head.test head.step x head.pos) body.entry result }
{
    match beside(head, body) {
        Ok((head, (body, rest))) => Ok((for_stmt(head, body), rest)),
        Err(stop) => Err(stop),
    }
}
