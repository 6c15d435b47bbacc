//! Reading the head of a component: its name, its parameters, its attributes, its specification (nesC 1.3 Reference).

ghost use Rattle.std.specs.Prelude.{◌≡◌, ◌<◌, ◌^◌};
ghost use Rattle.nesc_tree.specs.Changes.{all_taken_back};
ghost use Rattle.nesc_grammar.specs.Grammar as grammar;
ghost use Rattle.nesc_grammar.specs.Components as spec;
ghost use Rattle.nesc_parse_types.specs.Gives.{Gives, form_in};
ghost use Rattle.nesc_specifications.specs.Parts as parts;
ghost use Rattle.nesc_specifications.specs.Reads as reads;

use crate::generics::generics;
use crate::parts::{generic_of, head_of};
use crate::specifications::elements;
use nesc_parse_types::{Found, name};
use nesc_tree::{Attr, Change, GenericParam, Head, Sort, TypeNames, ahead};
use nm_base::{List, Token, beside};
use std::alloc::Global;

/// The attributes of a component or an interface, each of which takes a level.
pub fn attributes<'a>(
    alloc: Global,
    names: &TypeNames,
    spare: usize,
    ts: &'a [Token],
) -> Found<'a, List<Attr>>
    requires few { spare < 2 ^ 8 }
    requires room { 0 < spare }
    ensures { Gives names.now result (form_in spare spec.attributes names.now ts.now) }
{
    nesc_parse_decls::attributes(alloc, names, spare - 1, ts)
}

#[tactic(auto, unfolding(nesc_tree::specs::Reading::read))]
fn found_generics<'a>(
    alloc: Global,
    names: &mut TypeNames,
    changes: &mut Vec<Change>,
    spare: usize,
    ts: &'a [Token],
) -> Found<'a, Option<List<GenericParam>>>
    requires few { spare < 2 ^ 8 }
    requires room { 1 < spare }
    ensures gives { Gives names.new result (form_in spare parts.found_generics names.old ts.now) }
    ensures noted { all_taken_back changes.new.items names.new ≡ all_taken_back changes.old.items names.old }
{
    let (list, rest) = generics(alloc, names, changes, spare, ts)?;
    Ok((Some(list), rest))
}

fn some_generics<'a>(
    alloc: Global,
    names: &mut TypeNames,
    changes: &mut Vec<Change>,
    spare: usize,
    ts: &'a [Token],
) -> Found<'a, Option<List<GenericParam>>>
    requires few { spare < 2 ^ 8 }
    requires room { 1 < spare }
    ensures gives { Gives names.new result (form_in spare parts.some_generics names.old ts.now) }
    ensures noted { all_taken_back changes.new.items names.new ≡ all_taken_back changes.old.items names.old }
{
    match ahead(names, ts) {
        Sort::LParen => found_generics(alloc, names, changes, spare, ts),
        _ => Ok((None, ts)),
    }
}

fn read_head<'a>(
    alloc: Global,
    names: &mut TypeNames,
    changes: &mut Vec<Change>,
    spare: usize,
    is_generic: bool,
    ts: &'a [Token],
) -> Found<'a, Head>
    requires few { spare < 2 ^ 8 }
    requires room { 1 < spare }
    ensures gives { Gives names.new result (reads.head spare is_generic names.old ts.now) }
    ensures noted { all_taken_back changes.new.items names.new ≡ all_taken_back changes.old.items names.old }
{
    let (token, rest) = name(names, ts)?;
    let (params, rest) = some_generics(alloc, names, changes, spare, rest)?;
    let (params, (attrs, rest)) = beside(params, attributes(alloc, names, spare, rest))?;
    let (lists, (elems, rest)) = beside((params, attrs), elements(alloc, names, spare, rest))?;
    let (params, attrs) = lists;
    let generic = generic_of(alloc, is_generic, params);
    Ok((head_of(alloc, token, generic, attrs, elems)?, rest))
}

/// The head of a component behind `module` or `configuration`; the names of its parameters are in force behind it.
pub fn head<'a>(
    alloc: Global,
    names: &mut TypeNames,
    changes: &mut Vec<Change>,
    spare: usize,
    is_generic: bool,
    ts: &'a [Token],
) -> Found<'a, Head>
    requires few { spare < 2 ^ 8 }
    requires room { 1 < spare }
    ensures gives { Gives names.new result (form_in spare (grammar.applied is_generic spec.head) names.old ts.now) }
    ensures noted { all_taken_back changes.new.items names.new ≡ all_taken_back changes.old.items names.old }
{
    read_head(alloc, names, changes, spare, is_generic, ts)
}
