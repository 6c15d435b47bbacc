//! Reading an interface (nesC 1.3 Reference).

ghost use Rattle.std.specs.Prelude.{◌≡◌, ◌<◌, ◌^◌, ℕ};
ghost use Rattle.nesc_tree.specs.Changes.{all_taken_back};
ghost use Rattle.nesc_grammar.specs.Grammar as grammar;
ghost use Rattle.nesc_grammar.specs.Components as spec;
ghost use Rattle.nesc_parse_types.specs.Gives.{Gives, form_in};
ghost use Rattle.nesc_interfaces.specs.Parts as parts;
ghost use Rattle.nesc_interfaces.specs.Reads as reads;

use crate::items::items;
use crate::parts::interface_of;
use nesc_parse_decls::{added, no_list, single};
use nesc_parse_types::{Found, expect, is_comma, name};
use nesc_specifications::{attributes, type_parameter};
use nesc_tree::{Change, Part, Sort, TypeNames, ahead, same_sort};
use nm_base::{List, Name, Token, beside};
use std::alloc::Global;

#[tactic(auto, unfolding(nesc_tree::specs::Reading::read))]
fn parameter<'a>(
    alloc: Global,
    names: &mut TypeNames,
    changes: &mut Vec<Change>,
    ts: &'a [Token],
) -> Found<'a, Name>
    ensures gives { (spare : ℕ) → Gives names.new result (form_in spare parts.parameter names.old ts.now) }
    ensures noted { all_taken_back changes.new.items names.new ≡ all_taken_back changes.old.items names.old }
{
    let (token, rest) = type_parameter(names, changes, ts)?;
    Ok((Name::new(alloc, token.text.as_bytes())?, rest))
}

#[tactic(auto, unfolding(nesc_tree::specs::Reading::read))]
fn another_parameter<'a>(
    alloc: Global,
    names: &mut TypeNames,
    changes: &mut Vec<Change>,
    so_far: List<Name>,
    ts: &'a [Token],
) -> Found<'a, List<Name>>
    ensures gives { (spare : ℕ) → Gives names.new result (form_in spare (grammar.applied so_far parts.another_parameter) names.old ts.now) }
    ensures noted { all_taken_back changes.new.items names.new ≡ all_taken_back changes.old.items names.old }
{
    let (so_far, (_, rest)) = beside(so_far, expect(names, Sort::Comma, ts))?;
    let (so_far, (next, rest)) = beside(so_far, parameter(alloc, names, changes, rest))?;
    Ok((added(so_far, next)?, rest))
}

/// Type parameters with commas between them.
#[tactic(auto, unfolding(nesc_tree::specs::Reading::read))]
fn some_parameters<'a>(
    alloc: Global,
    names: &mut TypeNames,
    changes: &mut Vec<Change>,
    spare: usize,
    ts: &'a [Token],
) -> Found<'a, List<Name>>
    requires { 0 < spare }
    ensures gives { Gives names.new result (form_in spare parts.some_parameters names.old ts.now) }
    ensures noted { all_taken_back changes.new.items names.new ≡ all_taken_back changes.old.items names.old }
{
    let (first, rest) = parameter(alloc, names, changes, ts)?;
    let mut list = single(alloc, first)?;
    let mut rest = rest;
    while is_comma(ahead(names, rest)) {
        let (so_far, behind) = another_parameter(alloc, names, changes, list, rest)?;
        list = so_far;
        rest = behind;
    }
    Ok((list, rest))
}

/// The type parameters of an interface, where they are there; they are in force behind them.
#[tactic(auto, unfolding(nesc_tree::specs::Reading::read))]
fn type_parameters<'a>(
    alloc: Global,
    names: &mut TypeNames,
    changes: &mut Vec<Change>,
    spare: usize,
    ts: &'a [Token],
) -> Found<'a, List<Name>>
    requires { 0 < spare }
    ensures gives { Gives names.new result (form_in spare parts.type_parameters names.old ts.now) }
    ensures noted { all_taken_back changes.new.items names.new ≡ all_taken_back changes.old.items names.old }
{
    if !same_sort(Sort::Less, ahead(names, ts)) {
        return Ok((no_list(alloc), ts));
    }
    let (_, rest) = expect(names, Sort::Less, ts)?;
    let (list, rest) = some_parameters(alloc, names, changes, spare, rest)?;
    let (list, (_, rest)) = beside(list, expect(names, Sort::Greater, rest))?;
    Ok((list, rest))
}

#[tactic(auto, unfolding(nesc_tree::specs::Reading::read))]
fn read_interface<'a>(
    alloc: Global,
    names: &mut TypeNames,
    changes: &mut Vec<Change>,
    spare: usize,
    ts: &'a [Token],
) -> Found<'a, Part>
    requires few { spare < 2 ^ 8 }
    requires room { 0 < spare }
    ensures gives { Gives names.new result (reads.interface spare names.old ts.now) }
    ensures noted { all_taken_back changes.new.items names.new ≡ all_taken_back changes.old.items names.old }
{
    let (_, rest) = expect(names, Sort::Interface, ts)?;
    let (token, rest) = name(names, rest)?;
    let (params, rest) = type_parameters(alloc, names, changes, spare, rest)?;
    let (params, (attrs, rest)) = beside(params, attributes(alloc, names, spare, rest))?;
    let (lists, (items, rest)) = beside((params, attrs), items(alloc, names, spare, rest))?;
    let (params, attrs) = lists;
    Ok((interface_of(alloc, token, params, attrs, items)?, rest))
}

/// An interface; the names of its type parameters are in force behind it.
pub fn interface<'a>(
    alloc: Global,
    names: &mut TypeNames,
    changes: &mut Vec<Change>,
    spare: usize,
    ts: &'a [Token],
) -> Found<'a, Part>
    requires few { spare < 2 ^ 8 }
    requires room { 0 < spare }
    ensures gives { Gives names.new result (form_in spare spec.interface_form names.old ts.now) }
    ensures noted { all_taken_back changes.new.items names.new ≡ all_taken_back changes.old.items names.old }
{
    read_interface(alloc, names, changes, spare, ts)
}
