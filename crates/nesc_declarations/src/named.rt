//! Reading what is behind a type: stars, a name, and a function or variables.

ghost use Rattle.std.specs.Prelude.{◌≡◌, ◌<◌, ◌^◌};
ghost use Rattle.nesc_tree.specs.Changes.{all_taken_back};
ghost use Rattle.nesc_tree.specs.declared.contexts.Site.TheVariants as sites;
ghost use Rattle.nesc_grammar.specs.Declarations as spec;
ghost use Rattle.nesc_parse_types.specs.Gives.{form_in};
ghost use Rattle.nesc_heads.specs.Gives.{GivesAs};
ghost use Rattle.nesc_heads.specs.Words.{words_of};
ghost use Rattle.nesc_declarations.specs.Forms as forms;
ghost use Rattle.nesc_declarations.specs.Views.{behind_of, declaring_of};

use crate::ends::{Behind, Declared, End, finished};
use crate::first_variables::{bracketed, plain_variables};
use crate::functions::{function_end, own_function};
use nesc_declarators::stars;
use nesc_heads::{Words, function_words};
use nesc_parse_exprs::type_form;
use nesc_parse_types::{Found, Stop, name};
use nesc_tree::{CastType, Change, Site, Sort, TypeNames, ahead};
use nm_base::{Token, beside};
use std::alloc::Global;

// Where no variable may stand: what is behind a name, by its first token.
fn header_end<'a>(
    alloc: Global,
    names: &mut TypeNames,
    spare: usize,
    first: Sort,
    ts: &'a [Token],
) -> Found<'a, End<'a>>
    requires few { spare < 2 ^ 8 }
    requires room { 0 < spare }
    ensures gives { GivesAs behind_of names.old result (form_in spare (spec.header_end_of first) names.old ts.now) }
    ensures back { names.new ≡ names.old }
{
    match first {
        Sort::LParen => own_function(alloc, names, spare, ts),
        Sort::Dot => function_end(alloc, names, spare, ts),
        _ => Err(Stop::Syntax(ts)),
    }
}

// Where a variable may stand.
fn module_end<'a>(
    alloc: Global,
    names: &mut TypeNames,
    changes: &mut Vec<Change>,
    spare: usize,
    first: Sort,
    ts: &'a [Token],
) -> Found<'a, End<'a>>
    requires few { spare < 2 ^ 8 }
    requires room { 0 < spare }
    ensures gives { GivesAs behind_of names.new result (form_in spare (spec.end_of first) names.old ts.now) }
    ensures noted { all_taken_back changes.new.items names.new ≡ all_taken_back changes.old.items names.old }
{
    match first {
        Sort::LParen => own_function(alloc, names, spare, ts),
        Sort::Dot => function_end(alloc, names, spare, ts),
        Sort::LBracket => bracketed(alloc, names, changes, spare, ts),
        Sort::At | Sort::Assign | Sort::Comma | Sort::Semi => {
            plain_variables(alloc, names, changes, spare, ts)
        }
        _ => Err(Stop::Syntax(ts)),
    }
}

// What is behind a name, by its first token.
fn ending<'a>(
    alloc: Global,
    names: &mut TypeNames,
    changes: &mut Vec<Change>,
    spare: usize,
    site: Site,
    first: Sort,
    ts: &'a [Token],
) -> Found<'a, End<'a>>
    requires few { spare < 2 ^ 8 }
    requires room { 0 < spare }
    ensures gives { GivesAs behind_of names.new result (form_in spare (spec.ending site first) names.old ts.now) }
    ensures noted { all_taken_back changes.new.items names.new ≡ all_taken_back changes.old.items names.old }
{
    match site {
        Site::Header => header_end(alloc, names, spare, first, ts),
        Site::Module => module_end(alloc, names, changes, spare, first, ts),
    }
}

/// What is behind a name.
fn end_of<'a>(
    alloc: Global,
    names: &mut TypeNames,
    changes: &mut Vec<Change>,
    spare: usize,
    behind: Behind,
    ts: &'a [Token],
) -> Found<'a, End<'a>>
    requires few { spare < 2 ^ 8 }
    requires room { 0 < spare }
    ensures gives { GivesAs behind_of names.new result (form_in spare (forms.form_behind behind) names.old ts.now) }
    ensures noted { all_taken_back changes.new.items names.new ≡ all_taken_back changes.old.items names.old }
{
    match behind {
        Behind::Function => function_end(alloc, names, spare, ts),
        Behind::Either(site) => {
            let first = ahead(names, ts);
            ending(alloc, names, changes, spare, site, first, ts)
        }
    }
}

/// Stars, a name and what is behind it, of this type and with these words.
#[tactic(auto, unfolding(nesc_tree::specs::Reading::read))]
pub fn named<'a>(
    alloc: Global,
    names: &mut TypeNames,
    changes: &mut Vec<Change>,
    spare: usize,
    words: Words,
    shared: CastType,
    behind: Behind,
    ts: &'a [Token],
) -> Found<'a, Declared>
    requires few { spare < 2 ^ 8 }
    requires room { 0 < spare }
    ensures gives { GivesAs declaring_of names.new result (form_in spare (forms.named (words_of words) shared behind) names.old ts.now) }
    ensures noted { all_taken_back changes.new.items names.new ≡ all_taken_back changes.old.items names.old }
{
    let (shared, (stars, rest)) = beside(shared, stars(names, spare, ts))?;
    let (shared, (token, rest)) = beside(shared, name(names, rest))?;
    let (shared, (end, rest)) = beside(shared, end_of(alloc, names, changes, spare, behind, rest))?;
    Ok((finished(alloc, words, shared, stars, token, end)?, rest))
}

/// A function, task, command or event.
#[tactic(auto, unfolding(nesc_tree::specs::Reading::read))]
pub fn function<'a>(
    alloc: Global,
    names: &mut TypeNames,
    changes: &mut Vec<Change>,
    spare: usize,
    ts: &'a [Token],
) -> Found<'a, Declared>
    requires few { spare < 2 ^ 8 }
    requires room { 0 < spare }
    ensures gives { GivesAs declaring_of names.new result (form_in spare spec.function names.old ts.now) }
    ensures noted { all_taken_back changes.new.items names.new ≡ all_taken_back changes.old.items names.old }
{
    let (words, rest) = function_words(names, ts)?;
    let (shared, rest) = type_form(alloc, names, spare, rest)?;
    named(
        alloc,
        names,
        changes,
        spare,
        words,
        shared,
        Behind::Function,
        rest,
    )
}
