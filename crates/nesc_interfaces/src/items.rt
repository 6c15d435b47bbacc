//! Reading the commands and events of an interface (nesC 1.3 Reference).

ghost use Rattle.std.specs.Prelude.{◌≡◌, ◌<◌, ◌^◌, ℕ};
ghost use Rattle.nesc_tree.specs.Phrase as phrase;
ghost use Rattle.nesc_grammar.specs.Grammar as grammar;
ghost use Rattle.nesc_grammar.specs.Declarations as inner;
ghost use Rattle.nesc_grammar.specs.Components as spec;
ghost use Rattle.nesc_tree.specs.declared.sorts.Sort.TheVariants as sorts;
ghost use Rattle.nesc_parse_types.specs.Gives.{Gives, GivesToken, form_in};
ghost use Rattle.nesc_interfaces.specs.Items as steps;
ghost use Rattle.nesc_interfaces.specs.Parts as parts;
ghost use Rattle.nesc_interfaces.specs.Reads.{item_in};

use crate::parts::sig_of;
use nesc_declarators::stars;
use nesc_heads::parameters;
use nesc_parse_decls::{added, attributes, no_list};
use nesc_parse_exprs::type_form;
use nesc_parse_types::{Found, expect, name};
use nesc_scopes::give_back;
use nesc_tree::{CastType, Param, Sig, Sort, TypeNames, ahead, same_sort};
use nm_base::{List, Token, beside};
use std::alloc::Global;

// The parameters, whose names end with them.
fn scoped_parameters<'a>(
    alloc: Global,
    names: &mut TypeNames,
    spare: usize,
    ts: &'a [Token],
) -> Found<'a, List<Param>>
    requires { spare < 2 ^ 8 }
    ensures gives { Gives names.old result (form_in spare parts.scoped_parameters names.old ts.now) }
    ensures back { names.new ≡ names.old }
{
    let mut changes = Vec::new(alloc);
    let found = parameters(alloc, names, &mut changes, spare, ts);
    give_back(names, changes);
    found
}

#[tactic(auto, unfolding(nesc_tree::specs::Reading::read))]
fn item_end<'a>(
    alloc: Global,
    names: &mut TypeNames,
    spare: usize,
    ts: &'a [Token],
) -> Found<'a, List<Param>>
    requires { spare < 2 ^ 8 }
    ensures gives { Gives names.old result (form_in spare spec.item_end names.old ts.now) }
    ensures back { names.new ≡ names.old }
{
    let (params, rest) = scoped_parameters(alloc, names, spare, ts)?;
    let (params, (_, rest)) = beside(params, attributes(alloc, names, spare, rest))?;
    let (params, (_, rest)) = beside(params, expect(names, Sort::Semi, rest))?;
    Ok((params, rest))
}

// What is behind the type of a command or event.
#[tactic(auto, unfolding(nesc_tree::specs::Reading::read))]
fn typed_item<'a>(
    alloc: Global,
    names: &mut TypeNames,
    spare: usize,
    is_async: bool,
    word: &Token,
    shared: CastType,
    ts: &'a [Token],
) -> Found<'a, Sig>
    requires { spare < 2 ^ 8 }
    ensures gives { Gives names.old result (form_in spare (grammar.applied is_async (grammar.applied word.now (grammar.applied shared spec.typed_item))) names.old ts.now) }
    ensures back { names.new ≡ names.old }
{
    let (shared, (stars, rest)) = beside(shared, stars(names, spare, ts))?;
    let (shared, (token, rest)) = beside(shared, name(names, rest))?;
    let (shared, (params, rest)) = beside(shared, item_end(alloc, names, spare, rest))?;
    Ok((
        sig_of(alloc, is_async, word, shared, stars, token, params)?,
        rest,
    ))
}

#[tactic(auto, unfolding(nesc_tree::specs::Reading::read))]
fn some_async<'a>(names: &TypeNames, ts: &'a [Token]) -> Found<'a, bool>
    ensures { (spare : ℕ) → Gives names.now result (form_in spare (grammar.optional sorts.Async) names.now ts.now) }
{
    if !same_sort(Sort::Async, ahead(names, ts)) {
        return Ok((false, ts));
    }
    let (_, rest) = expect(names, Sort::Async, ts)?;
    Ok((true, rest))
}

#[tactic(auto, unfolding(nesc_tree::specs::Reading::read))]
fn item_word<'a>(names: &TypeNames, ts: &'a [Token]) -> Found<'a, &'a Token>
    ensures { (spare : ℕ) → GivesToken names.now result (form_in spare (grammar.one sorts.Item) names.now ts.now) }
{
    let (word, rest) = expect(names, Sort::Item, ts)?;
    Ok((word, rest))
}

fn read_item<'a>(
    alloc: Global,
    names: &mut TypeNames,
    spare: usize,
    ts: &'a [Token],
) -> Found<'a, Sig>
    requires { spare < 2 ^ 8 }
    ensures gives { Gives names.old result (steps.item spare names.old ts.now) }
    ensures back { names.new ≡ names.old }
{
    let (is_async, rest) = some_async(names, ts)?;
    let (word, rest) = item_word(names, rest)?;
    let (shared, rest) = type_form(alloc, names, spare, rest)?;
    typed_item(alloc, names, spare, is_async, word, shared, rest)
}

fn item_form<'a>(
    alloc: Global,
    names: &mut TypeNames,
    spare: usize,
    ts: &'a [Token],
) -> Found<'a, Sig>
    requires { spare < 2 ^ 8 }
    ensures gives { Gives names.old result (form_in spare spec.item names.old ts.now) }
    ensures back { names.new ≡ names.old }
{
    read_item(alloc, names, spare, ts)
}

/// A command or event, with at most `levels` levels, of which it takes one itself.
fn item<'a>(alloc: Global, names: &mut TypeNames, levels: usize, ts: &'a [Token]) -> Found<'a, Sig>
    requires few { levels < 2 ^ 8 }
    requires room { 0 < levels }
    ensures gives { Gives names.new result (item_in levels names.old ts.now) }
    ensures back { names.new ≡ names.old }
{
    item_form(alloc, names, levels - 1, ts)
}

fn begins_item(sort: Sort) -> bool
    ensures { result ≡ phrase.begins_item sort }
{
    matches!(sort, Sort::Async | Sort::Item)
}

#[tactic(auto, unfolding(nesc_tree::specs::Reading::read))]
fn another_item<'a>(
    alloc: Global,
    names: &mut TypeNames,
    spare: usize,
    so_far: List<Sig>,
    ts: &'a [Token],
) -> Found<'a, List<Sig>>
    requires few { spare < 2 ^ 8 }
    requires room { 0 < spare }
    ensures gives { Gives names.new result (form_in spare (grammar.applied so_far parts.another_item) names.old ts.now) }
    ensures back { names.new ≡ names.old }
{
    let (so_far, (next, rest)) = beside(so_far, item(alloc, names, spare, ts))?;
    Ok((added(so_far, next)?, rest))
}

#[tactic(auto, unfolding(nesc_tree::specs::Reading::read))]
fn some_items<'a>(
    alloc: Global,
    names: &mut TypeNames,
    spare: usize,
    ts: &'a [Token],
) -> Found<'a, List<Sig>>
    requires few { spare < 2 ^ 8 }
    requires room { 0 < spare }
    ensures gives { Gives names.new result (form_in spare parts.some_items names.old ts.now) }
    ensures back { names.new ≡ names.old }
{
    let mut list = no_list(alloc);
    let mut rest = ts;
    while begins_item(ahead(names, rest)) {
        let (so_far, behind) = another_item(alloc, names, spare, list, rest)?;
        list = so_far;
        rest = behind;
    }
    Ok((list, rest))
}

/// The commands and events of an interface, between braces.
#[tactic(auto, unfolding(nesc_tree::specs::Reading::read))]
pub fn items<'a>(
    alloc: Global,
    names: &mut TypeNames,
    spare: usize,
    ts: &'a [Token],
) -> Found<'a, List<Sig>>
    requires few { spare < 2 ^ 8 }
    requires room { 0 < spare }
    ensures gives { Gives names.new result (form_in spare spec.items names.old ts.now) }
    ensures back { names.new ≡ names.old }
{
    let (_, rest) = expect(names, Sort::LBrace, ts)?;
    let (list, rest) = some_items(alloc, names, spare, rest)?;
    let (list, (_, rest)) = beside(list, expect(names, Sort::RBrace, rest))?;
    Ok((list, rest))
}
