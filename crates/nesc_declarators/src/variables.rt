//! Reading variables; a name is in force from behind its declarator on (C99 6.2.1, 6.7.8).

ghost use Rattle.std.specs.Prelude.{◌≡◌, ◌<◌, ◌^◌};
ghost use Rattle.nesc_tree.specs.Changes.{all_taken_back};
ghost use Rattle.nesc_grammar.specs.Grammar as grammar;
ghost use Rattle.nesc_grammar.specs.Declarations as spec;
ghost use Rattle.nesc_parse_types.specs.Gives.{Gives, form_in};
ghost use Rattle.nesc_declarators.specs.Parts as parts;

use crate::declarators::declarator;
use crate::parts::with_init;
use nesc_parse_decls::{added, attributes, init, no_list, single};
use nesc_parse_types::{Found, Stop, expect, is_comma};
use nesc_scopes::hide;
use nesc_tree::{Change, Init, Sort, TypeNames, Variable, ahead, same_sort};
use nm_base::{List, Token, beside};
use std::alloc::Global;

/// A declarator, from behind which its name is in force.
#[tactic(auto, unfolding(nesc_tree::specs::Reading::read))]
fn hiding_variable<'a>(
    alloc: Global,
    names: &mut TypeNames,
    changes: &mut Vec<Change>,
    spare: usize,
    ts: &'a [Token],
) -> Found<'a, Variable>
    requires { spare < 2 ^ 8 }
    ensures gives { Gives names.new result (form_in spare parts.hiding_variable names.old ts.now) }
    ensures noted { all_taken_back changes.new.items names.new ≡ all_taken_back changes.old.items names.old }
{
    let (variable, rest) = declarator(alloc, names, spare, ts)?;
    let hidden = hide(names, changes, &variable.declarator.name);
    let (variable, _) = beside(variable, hidden)?;
    Ok((variable, rest))
}

/// The initialiser, where one is there.
#[tactic(auto, unfolding(nesc_tree::specs::Reading::read))]
pub fn some_init<'a>(
    alloc: Global,
    names: &TypeNames,
    spare: usize,
    ts: &'a [Token],
) -> Found<'a, Option<Init>>
    requires { spare < 2 ^ 8 }
    ensures { Gives names.now result (form_in spare spec.some_init names.now ts.now) }
{
    if !same_sort(Sort::Assign, ahead(names, ts)) {
        return Ok((None, ts));
    }
    if spare == 0 {
        return Err(Stop::Deep(ts));
    }
    let (_, rest) = expect(names, Sort::Assign, ts)?;
    let (value, rest) = init(alloc, names, spare, rest)?;
    Ok((Some(value), rest))
}

/// The attributes and the initialiser behind a declarator; a variable's attributes have no effect.
#[tactic(auto, unfolding(nesc_tree::specs::Reading::read))]
fn variable_end<'a>(
    alloc: Global,
    names: &TypeNames,
    spare: usize,
    ts: &'a [Token],
) -> Found<'a, Option<Init>>
    requires { spare < 2 ^ 8 }
    ensures { Gives names.now result (form_in spare parts.variable_end names.now ts.now) }
{
    let (_, rest) = attributes(alloc, names, spare, ts)?;
    some_init(alloc, names, spare, rest)
}

#[tactic(auto, unfolding(nesc_tree::specs::Reading::read))]
fn joined_variable<'a>(
    alloc: Global,
    names: &mut TypeNames,
    changes: &mut Vec<Change>,
    spare: usize,
    ts: &'a [Token],
) -> Found<'a, Variable>
    requires { spare < 2 ^ 8 }
    ensures gives { Gives names.new result (form_in spare parts.joined_variable names.old ts.now) }
    ensures noted { all_taken_back changes.new.items names.new ≡ all_taken_back changes.old.items names.old }
{
    let (variable, rest) = hiding_variable(alloc, names, changes, spare, ts)?;
    let (variable, (init, rest)) = beside(variable, variable_end(alloc, names, spare, rest))?;
    Ok((with_init(variable, init), rest))
}

/// A variable.
fn variable<'a>(
    alloc: Global,
    names: &mut TypeNames,
    changes: &mut Vec<Change>,
    spare: usize,
    ts: &'a [Token],
) -> Found<'a, Variable>
    requires { spare < 2 ^ 8 }
    ensures gives { Gives names.new result (form_in spare spec.variable names.old ts.now) }
    ensures noted { all_taken_back changes.new.items names.new ≡ all_taken_back changes.old.items names.old }
{
    joined_variable(alloc, names, changes, spare, ts)
}

/// A variable behind a comma.
#[tactic(auto, unfolding(nesc_tree::specs::Reading::read))]
fn next_variable<'a>(
    alloc: Global,
    names: &mut TypeNames,
    changes: &mut Vec<Change>,
    spare: usize,
    ts: &'a [Token],
) -> Found<'a, Variable>
    requires { spare < 2 ^ 8 }
    ensures gives { Gives names.new result (form_in spare parts.next_variable names.old ts.now) }
    ensures noted { all_taken_back changes.new.items names.new ≡ all_taken_back changes.old.items names.old }
{
    let (_, rest) = expect(names, Sort::Comma, ts)?;
    variable(alloc, names, changes, spare, rest)
}

#[tactic(auto, unfolding(nesc_tree::specs::Reading::read))]
fn another_variable<'a>(
    alloc: Global,
    names: &mut TypeNames,
    changes: &mut Vec<Change>,
    spare: usize,
    so_far: List<Variable>,
    ts: &'a [Token],
) -> Found<'a, List<Variable>>
    requires { spare < 2 ^ 8 }
    ensures gives { Gives names.new result (form_in spare (grammar.applied so_far parts.another_variable) names.old ts.now) }
    ensures noted { all_taken_back changes.new.items names.new ≡ all_taken_back changes.old.items names.old }
{
    let (so_far, (next, rest)) = beside(so_far, next_variable(alloc, names, changes, spare, ts))?;
    Ok((added(so_far, next)?, rest))
}

/// Variables with commas between them.
#[tactic(auto, unfolding(nesc_tree::specs::Reading::read))]
pub fn variables<'a>(
    alloc: Global,
    names: &mut TypeNames,
    changes: &mut Vec<Change>,
    spare: usize,
    ts: &'a [Token],
) -> Found<'a, List<Variable>>
    requires { spare < 2 ^ 8 }
    ensures gives { Gives names.new result (form_in spare spec.variables names.old ts.now) }
    ensures noted { all_taken_back changes.new.items names.new ≡ all_taken_back changes.old.items names.old }
{
    let (first, rest) = variable(alloc, names, changes, spare, ts)?;
    let mut list = single(alloc, first)?;
    let mut rest = rest;
    while is_comma(ahead(names, rest)) {
        let (so_far, behind) = another_variable(alloc, names, changes, spare, list, rest)?;
        list = so_far;
        rest = behind;
    }
    Ok((list, rest))
}

/// The variables behind the first one, each behind a comma.
#[tactic(auto, unfolding(nesc_tree::specs::Reading::read))]
pub fn more_variables<'a>(
    alloc: Global,
    names: &mut TypeNames,
    changes: &mut Vec<Change>,
    spare: usize,
    ts: &'a [Token],
) -> Found<'a, List<Variable>>
    requires { spare < 2 ^ 8 }
    ensures gives { Gives names.new result (form_in spare spec.more_variables names.old ts.now) }
    ensures noted { all_taken_back changes.new.items names.new ≡ all_taken_back changes.old.items names.old }
{
    let mut list = no_list(alloc);
    let mut rest = ts;
    while is_comma(ahead(names, rest)) {
        let (so_far, behind) = another_variable(alloc, names, changes, spare, list, rest)?;
        list = so_far;
        rest = behind;
    }
    Ok((list, rest))
}

/// Variables and the semicolon behind them.
#[tactic(auto, unfolding(nesc_tree::specs::Reading::read))]
pub fn closed_variables<'a>(
    alloc: Global,
    names: &mut TypeNames,
    changes: &mut Vec<Change>,
    spare: usize,
    ts: &'a [Token],
) -> Found<'a, List<Variable>>
    requires { spare < 2 ^ 8 }
    ensures gives { Gives names.new result (form_in spare parts.closed_variables names.old ts.now) }
    ensures noted { all_taken_back changes.new.items names.new ≡ all_taken_back changes.old.items names.old }
{
    let (list, rest) = variables(alloc, names, changes, spare, ts)?;
    let (list, (_, rest)) = beside(list, expect(names, Sort::Semi, rest))?;
    Ok((list, rest))
}
