//! Reading the parameters of generic components (nesC 1.3 Reference).

ghost use Rattle.std.specs.Prelude.{◌≡◌, ◌<◌, ◌^◌, ℕ};
ghost use Rattle.nesc_tree.specs.Changes.{all_taken_back};
ghost use Rattle.nesc_grammar.specs.Grammar as grammar;
ghost use Rattle.nesc_grammar.specs.Components as spec;
ghost use Rattle.nesc_parse_types.specs.Gives.{Gives, GivesToken, form_in};
ghost use Rattle.nesc_specifications.specs.Parts as parts;
ghost use Rattle.nesc_specifications.specs.Reads.{generics_in};

use crate::parts::{type_param, value_param};
use nesc_parse_decls::{added, attributes, no_list, single};
use nesc_parse_exprs::type_form;
use nesc_parse_types::{Found, Stop, begins_type, expect, is_comma, name};
use nesc_scopes::{declare_type, hide};
use nesc_tree::{Change, GenericParam, Sort, TypeNames, ahead};
use nm_base::{List, Token, beside};
use std::alloc::Global;

/// A name that is a type name from behind it.
#[tactic(auto, unfolding(nesc_tree::specs::Reading::read))]
pub fn type_parameter<'a>(
    names: &mut TypeNames,
    changes: &mut Vec<Change>,
    ts: &'a [Token],
) -> Found<'a, &'a Token>
    ensures gives { (spare : ℕ) → GivesToken names.new result (form_in spare spec.type_parameter names.old ts.now) }
    ensures noted { all_taken_back changes.new.items names.new ≡ all_taken_back changes.old.items names.old }
{
    let (token, rest) = name(names, ts)?;
    declare_type(names, changes, &token.text)?;
    Ok((token, rest))
}

/// A name that is no type name from behind it.
#[tactic(auto, unfolding(nesc_tree::specs::Reading::read))]
fn hiding_name<'a>(
    names: &mut TypeNames,
    changes: &mut Vec<Change>,
    ts: &'a [Token],
) -> Found<'a, &'a Token>
    ensures gives { (spare : ℕ) → GivesToken names.new result (form_in spare parts.hiding_name names.old ts.now) }
    ensures noted { all_taken_back changes.new.items names.new ≡ all_taken_back changes.old.items names.old }
{
    let (token, rest) = name(names, ts)?;
    hide(names, changes, &token.text)?;
    Ok((token, rest))
}

/// A parameter that is a type; its attributes have no effect.
#[tactic(auto, unfolding(nesc_tree::specs::Reading::read))]
fn type_param_form<'a>(
    alloc: Global,
    names: &mut TypeNames,
    changes: &mut Vec<Change>,
    spare: usize,
    ts: &'a [Token],
) -> Found<'a, GenericParam>
    requires { spare < 2 ^ 8 }
    ensures gives { Gives names.new result (form_in spare parts.type_parameter names.old ts.now) }
    ensures noted { all_taken_back changes.new.items names.new ≡ all_taken_back changes.old.items names.old }
{
    let (_, rest) = expect(names, Sort::Typedef, ts)?;
    let (token, rest) = type_parameter(names, changes, rest)?;
    let (_, rest) = attributes(alloc, names, spare, rest)?;
    Ok((type_param(alloc, token)?, rest))
}

/// A parameter that is a value.
#[tactic(auto, unfolding(nesc_tree::specs::Reading::read))]
fn value_param_form<'a>(
    alloc: Global,
    names: &mut TypeNames,
    changes: &mut Vec<Change>,
    spare: usize,
    ts: &'a [Token],
) -> Found<'a, GenericParam>
    requires { spare < 2 ^ 8 }
    ensures gives { Gives names.new result (form_in spare parts.value_parameter names.old ts.now) }
    ensures noted { all_taken_back changes.new.items names.new ≡ all_taken_back changes.old.items names.old }
{
    let (shared, rest) = type_form(alloc, names, spare, ts)?;
    let (shared, (token, rest)) = beside(shared, hiding_name(names, changes, rest))?;
    Ok((value_param(alloc, shared, token)?, rest))
}

// A parameter by its first token.
fn param_of<'a>(
    alloc: Global,
    names: &mut TypeNames,
    changes: &mut Vec<Change>,
    spare: usize,
    first: Sort,
    ts: &'a [Token],
) -> Found<'a, GenericParam>
    requires { spare < 2 ^ 8 }
    ensures gives { Gives names.new result (form_in spare (spec.generic_parameter_of first) names.old ts.now) }
    ensures noted { all_taken_back changes.new.items names.new ≡ all_taken_back changes.old.items names.old }
{
    match first {
        Sort::Typedef => type_param_form(alloc, names, changes, spare, ts),
        _ => {
            if begins_type(first) {
                value_param_form(alloc, names, changes, spare, ts)
            } else {
                Err(Stop::Syntax(ts))
            }
        }
    }
}

fn param<'a>(
    alloc: Global,
    names: &mut TypeNames,
    changes: &mut Vec<Change>,
    spare: usize,
    ts: &'a [Token],
) -> Found<'a, GenericParam>
    requires few { spare < 2 ^ 8 }
    requires room { 0 < spare }
    ensures gives { Gives names.new result (form_in spare parts.parameter names.old ts.now) }
    ensures noted { all_taken_back changes.new.items names.new ≡ all_taken_back changes.old.items names.old }
{
    let first = ahead(names, ts);
    param_of(alloc, names, changes, spare, first, ts)
}

#[tactic(auto, unfolding(nesc_tree::specs::Reading::read))]
fn another_param<'a>(
    alloc: Global,
    names: &mut TypeNames,
    changes: &mut Vec<Change>,
    spare: usize,
    so_far: List<GenericParam>,
    ts: &'a [Token],
) -> Found<'a, List<GenericParam>>
    requires few { spare < 2 ^ 8 }
    requires room { 0 < spare }
    ensures gives { Gives names.new result (form_in spare (grammar.applied so_far parts.another_parameter) names.old ts.now) }
    ensures noted { all_taken_back changes.new.items names.new ≡ all_taken_back changes.old.items names.old }
{
    let (so_far, (_, rest)) = beside(so_far, expect(names, Sort::Comma, ts))?;
    let (so_far, (next, rest)) = beside(so_far, param(alloc, names, changes, spare, rest))?;
    Ok((added(so_far, next)?, rest))
}

/// Parameters with commas between them.
#[tactic(auto, unfolding(nesc_tree::specs::Reading::read))]
fn some_params<'a>(
    alloc: Global,
    names: &mut TypeNames,
    changes: &mut Vec<Change>,
    spare: usize,
    ts: &'a [Token],
) -> Found<'a, List<GenericParam>>
    requires few { spare < 2 ^ 8 }
    requires room { 0 < spare }
    ensures gives { Gives names.new result (form_in spare parts.some_parameters names.old ts.now) }
    ensures noted { all_taken_back changes.new.items names.new ≡ all_taken_back changes.old.items names.old }
{
    let (first, rest) = param(alloc, names, changes, spare, ts)?;
    let mut list = single(alloc, first)?;
    let mut rest = rest;
    while is_comma(ahead(names, rest)) {
        let (so_far, behind) = another_param(alloc, names, changes, spare, list, rest)?;
        list = so_far;
        rest = behind;
    }
    Ok((list, rest))
}

// Whether a parameter begins with a token of this sort.
fn begins_param(sort: Sort) -> bool
    ensures { result ≡ parts.begins_parameter sort }
{
    match sort {
        Sort::Typedef => true,
        _ => begins_type(sort),
    }
}

fn maybe_params<'a>(
    alloc: Global,
    names: &mut TypeNames,
    changes: &mut Vec<Change>,
    spare: usize,
    ts: &'a [Token],
) -> Found<'a, List<GenericParam>>
    requires few { spare < 2 ^ 8 }
    requires room { 0 < spare }
    ensures gives { Gives names.new result (form_in spare parts.maybe_parameters names.old ts.now) }
    ensures noted { all_taken_back changes.new.items names.new ≡ all_taken_back changes.old.items names.old }
{
    if begins_param(ahead(names, ts)) {
        some_params(alloc, names, changes, spare, ts)
    } else {
        Ok((no_list(alloc), ts))
    }
}

#[tactic(auto, unfolding(nesc_tree::specs::Reading::read))]
fn generics_form<'a>(
    alloc: Global,
    names: &mut TypeNames,
    changes: &mut Vec<Change>,
    spare: usize,
    ts: &'a [Token],
) -> Found<'a, List<GenericParam>>
    requires few { spare < 2 ^ 8 }
    requires room { 0 < spare }
    ensures gives { Gives names.new result (form_in spare spec.generics names.old ts.now) }
    ensures noted { all_taken_back changes.new.items names.new ≡ all_taken_back changes.old.items names.old }
{
    let (_, rest) = expect(names, Sort::LParen, ts)?;
    let (list, rest) = maybe_params(alloc, names, changes, spare, rest)?;
    let (list, (_, rest)) = beside(list, expect(names, Sort::RParen, rest))?;
    Ok((list, rest))
}

/// The parameters of a generic component, with at most `levels` levels, of which they take one themselves.
pub fn generics<'a>(
    alloc: Global,
    names: &mut TypeNames,
    changes: &mut Vec<Change>,
    levels: usize,
    ts: &'a [Token],
) -> Found<'a, List<GenericParam>>
    requires few { levels < 2 ^ 8 }
    requires room { 1 < levels }
    ensures gives { Gives names.new result (generics_in levels names.old ts.now) }
    ensures noted { all_taken_back changes.new.items names.new ≡ all_taken_back changes.old.items names.old }
{
    generics_form(alloc, names, changes, levels - 1, ts)
}
