//! Reading what stands behind the name of a function (nesC 1.3 Reference).

ghost use Rattle.std.specs.Prelude.{◌≡◌, ◌<◌, ◌^◌, ℕ};
ghost use Rattle.nesc_tree.specs.Changes.{all_taken_back};
ghost use Rattle.nesc_grammar.specs.Declarations as spec;
ghost use Rattle.nesc_parse_types.specs.Gives.{Gives, GivesToken, form_in};
ghost use Rattle.nesc_heads.specs.Gives.{GivesAs, token_in};
ghost use Rattle.nesc_heads.specs.Parts as parts;

use crate::parts::bracket_of;
use nesc_parse_exprs::type_form;
use nesc_parse_types::{Found, expect, name};
use nesc_scopes::hide;
use nesc_tree::{Change, Param, Sort, TypeNames, ahead, same_sort};
use nm_base::{Token, beside};
use std::alloc::Global;

/// A name that is in force from behind it.
#[tactic(auto, unfolding(nesc_tree::specs::Reading::read))]
fn hiding_name<'a>(
    names: &mut TypeNames,
    changes: &mut Vec<Change>,
    ts: &'a [Token],
) -> Found<'a, &'a Token>
    ensures gives { (spare : ℕ) → GivesToken names.new result (form_in spare parts.hiding_name names.old ts.now) }
    ensures noted { all_taken_back changes.new.items names.new ≡ all_taken_back changes.old.items names.old }
{
    let (token, rest) = name(names, ts)?;
    hide(names, changes, &token.text)?;
    Ok((token, rest))
}

#[tactic(auto, unfolding(nesc_tree::specs::Reading::read))]
fn bracket_name<'a>(
    names: &mut TypeNames,
    changes: &mut Vec<Change>,
    ts: &'a [Token],
) -> Found<'a, &'a Token>
    ensures gives { (spare : ℕ) → GivesToken names.new result (form_in spare parts.bracket_name names.old ts.now) }
    ensures noted { all_taken_back changes.new.items names.new ≡ all_taken_back changes.old.items names.old }
{
    let (token, rest) = hiding_name(names, changes, ts)?;
    let (_, rest) = expect(names, Sort::RBracket, rest)?;
    Ok((token, rest))
}

/// The parameter of a bracket, from behind `[`.
#[tactic(auto, unfolding(nesc_tree::specs::Reading::read))]
pub fn bracket_rest<'a>(
    alloc: Global,
    names: &mut TypeNames,
    changes: &mut Vec<Change>,
    spare: usize,
    ts: &'a [Token],
) -> Found<'a, Param>
    requires { spare < 2 ^ 8 }
    ensures gives { Gives names.new result (form_in spare spec.bracket_rest names.old ts.now) }
    ensures noted { all_taken_back changes.new.items names.new ≡ all_taken_back changes.old.items names.old }
{
    let (shared, rest) = type_form(alloc, names, spare, ts)?;
    let (shared, (token, rest)) = beside(shared, bracket_name(names, changes, rest))?;
    Ok((bracket_of(alloc, shared, token)?, rest))
}

/// The parameter of a bracket, where one is there.
#[tactic(auto, unfolding(nesc_tree::specs::Reading::read))]
pub fn bracket<'a>(
    alloc: Global,
    names: &mut TypeNames,
    changes: &mut Vec<Change>,
    spare: usize,
    ts: &'a [Token],
) -> Found<'a, Option<Param>>
    requires { spare < 2 ^ 8 }
    ensures gives { Gives names.new result (form_in spare spec.bracket names.old ts.now) }
    ensures noted { all_taken_back changes.new.items names.new ≡ all_taken_back changes.old.items names.old }
{
    if !same_sort(Sort::LBracket, ahead(names, ts)) {
        return Ok((None, ts));
    }
    let (_, rest) = expect(names, Sort::LBracket, ts)?;
    let (found, rest) = bracket_rest(alloc, names, changes, spare, rest)?;
    Ok((Some(found), rest))
}

/// The name of an interface's item, where one is there.
#[tactic(auto, unfolding(nesc_tree::specs::Reading::read))]
pub fn some_item_name<'a>(names: &TypeNames, ts: &'a [Token]) -> Found<'a, Option<&'a Token>>
    ensures { (spare : ℕ) → GivesAs token_in names.now result (form_in spare (spec.some spec.item_name) names.now ts.now) }
{
    if !same_sort(Sort::Dot, ahead(names, ts)) {
        return Ok((None, ts));
    }
    let (_, rest) = expect(names, Sort::Dot, ts)?;
    let (token, rest) = name(names, rest)?;
    Ok((Some(token), rest))
}
