//! Reading the specification of a component (nesC 1.3 Reference).

ghost use Rattle.std.specs.Prelude.{◌≡◌, ◌<◌, ◌^◌};
ghost use Rattle.nesc_grammar.specs.Grammar as grammar;
ghost use Rattle.nesc_grammar.specs.Components as spec;
ghost use Rattle.nesc_parse_types.specs.Gives.{Gives, form_in};
ghost use Rattle.nesc_specifications.specs.Parts as parts;
ghost use Rattle.nesc_specifications.specs.Reads as reads;
ghost use Rattle.nesc_specifications.specs.Reads.{spec_in};

use crate::elements::element;
use crate::parts::{joined, provides};
use nesc_parse_decls::{added, no_list, single};
use nesc_parse_types::{Found, Stop, expect};
use nesc_tree::{Elem, Sort, TypeNames, ahead};
use nm_base::{List, Token, beside};
use std::alloc::Global;

fn is_interface(sort: Sort) -> bool
    ensures { result ≡ spec.is_interface sort }
{
    matches!(sort, Sort::Interface)
}

fn is_specify(sort: Sort) -> bool
    ensures { result ≡ spec.is_specify sort }
{
    matches!(sort, Sort::Specify)
}

#[tactic(auto, unfolding(nesc_tree::specs::Reading::read))]
fn another_element<'a>(
    alloc: Global,
    names: &TypeNames,
    spare: usize,
    provides: bool,
    so_far: List<Elem>,
    ts: &'a [Token],
) -> Found<'a, List<Elem>>
    requires few { spare < 2 ^ 8 }
    requires room { 0 < spare }
    ensures { Gives names.now result (form_in spare (grammar.applied so_far (parts.another_element provides)) names.now ts.now) }
{
    let (so_far, (next, rest)) = beside(so_far, element(alloc, names, spare, provides, ts))?;
    Ok((added(so_far, next)?, rest))
}

#[tactic(auto, unfolding(nesc_tree::specs::Reading::read))]
fn some_elements<'a>(
    alloc: Global,
    names: &TypeNames,
    spare: usize,
    provides: bool,
    ts: &'a [Token],
) -> Found<'a, List<Elem>>
    requires few { spare < 2 ^ 8 }
    requires room { 0 < spare }
    ensures { Gives names.now result (form_in spare (parts.some_elements provides) names.now ts.now) }
{
    let mut list = no_list(alloc);
    let mut rest = ts;
    while is_interface(ahead(names, rest)) {
        let (so_far, behind) = another_element(alloc, names, spare, provides, list, rest)?;
        list = so_far;
        rest = behind;
    }
    Ok((list, rest))
}

/// Elements between braces.
#[tactic(auto, unfolding(nesc_tree::specs::Reading::read))]
fn element_block<'a>(
    alloc: Global,
    names: &TypeNames,
    spare: usize,
    provides: bool,
    ts: &'a [Token],
) -> Found<'a, List<Elem>>
    requires few { spare < 2 ^ 8 }
    requires room { 0 < spare }
    ensures { Gives names.now result (form_in spare (parts.element_block provides) names.now ts.now) }
{
    let (_, rest) = expect(names, Sort::LBrace, ts)?;
    let (list, rest) = some_elements(alloc, names, spare, provides, rest)?;
    let (list, (_, rest)) = beside(list, expect(names, Sort::RBrace, rest))?;
    Ok((list, rest))
}

#[tactic(auto, unfolding(nesc_tree::specs::Reading::read))]
fn single_element<'a>(
    alloc: Global,
    names: &TypeNames,
    spare: usize,
    provides: bool,
    ts: &'a [Token],
) -> Found<'a, List<Elem>>
    requires few { spare < 2 ^ 8 }
    requires room { 0 < spare }
    ensures { Gives names.now result (form_in spare (parts.single_element provides) names.now ts.now) }
{
    let (found, rest) = element(alloc, names, spare, provides, ts)?;
    Ok((single(alloc, found)?, rest))
}

// The elements behind `provides` or `uses`, by their first token.
#[tactic(auto, unfolding(nesc_tree::specs::Reading::read))]
fn elements_of<'a>(
    alloc: Global,
    names: &TypeNames,
    spare: usize,
    provides: bool,
    first: Sort,
    ts: &'a [Token],
) -> Found<'a, List<Elem>>
    requires few { spare < 2 ^ 8 }
    requires room { 0 < spare }
    ensures { Gives names.now result (form_in spare (parts.elements_of provides first) names.now ts.now) }
{
    match first {
        Sort::LBrace => element_block(alloc, names, spare, provides, ts),
        Sort::Interface => single_element(alloc, names, spare, provides, ts),
        _ => Err(Stop::Syntax(ts)),
    }
}

#[tactic(auto, unfolding(nesc_tree::specs::Reading::read))]
fn read_specification<'a>(
    alloc: Global,
    names: &TypeNames,
    spare: usize,
    ts: &'a [Token],
) -> Found<'a, List<Elem>>
    requires few { spare < 2 ^ 8 }
    requires room { 0 < spare }
    ensures { Gives names.now result (reads.specification spare names.now ts.now) }
{
    let (word, rest) = expect(names, Sort::Specify, ts)?;
    let first = ahead(names, rest);
    elements_of(alloc, names, spare, provides(word), first, rest)
}

/// What a component provides or uses, with at most `levels` levels, of which it takes one itself.
fn specification<'a>(
    alloc: Global,
    names: &TypeNames,
    levels: usize,
    ts: &'a [Token],
) -> Found<'a, List<Elem>>
    requires few { levels < 2 ^ 8 }
    requires room { 1 < levels }
    ensures { Gives names.now result (spec_in levels names.now ts.now) }
{
    read_specification(alloc, names, levels - 1, ts)
}

#[tactic(auto, unfolding(nesc_tree::specs::Reading::read))]
fn another_specification<'a>(
    alloc: Global,
    names: &TypeNames,
    spare: usize,
    so_far: List<Elem>,
    ts: &'a [Token],
) -> Found<'a, List<Elem>>
    requires few { spare < 2 ^ 8 }
    requires room { 1 < spare }
    ensures { Gives names.now result (form_in spare (grammar.applied so_far parts.another_specification) names.now ts.now) }
{
    let (so_far, (more, rest)) = beside(so_far, specification(alloc, names, spare, ts))?;
    Ok((joined(so_far, more)?, rest))
}

#[tactic(auto, unfolding(nesc_tree::specs::Reading::read))]
fn specifications<'a>(
    alloc: Global,
    names: &TypeNames,
    spare: usize,
    ts: &'a [Token],
) -> Found<'a, List<Elem>>
    requires few { spare < 2 ^ 8 }
    requires room { 1 < spare }
    ensures { Gives names.now result (form_in spare parts.specifications names.now ts.now) }
{
    let mut list = no_list(alloc);
    let mut rest = ts;
    while is_specify(ahead(names, rest)) {
        let (so_far, behind) = another_specification(alloc, names, spare, list, rest)?;
        list = so_far;
        rest = behind;
    }
    Ok((list, rest))
}

/// The elements of a component, between the braces of its specification.
#[tactic(auto, unfolding(nesc_tree::specs::Reading::read))]
pub fn elements<'a>(
    alloc: Global,
    names: &TypeNames,
    spare: usize,
    ts: &'a [Token],
) -> Found<'a, List<Elem>>
    requires few { spare < 2 ^ 8 }
    requires room { 1 < spare }
    ensures { Gives names.now result (form_in spare spec.elements names.now ts.now) }
{
    let (_, rest) = expect(names, Sort::LBrace, ts)?;
    let (list, rest) = specifications(alloc, names, spare, rest)?;
    let (list, (_, rest)) = beside(list, expect(names, Sort::RBrace, rest))?;
    Ok((list, rest))
}
