//! Reading a declaration by its first token.

ghost use Rattle.std.specs.Prelude.{◌≡◌, ◌<◌, ◌^◌, ℕ};
ghost use Rattle.nesc_tree.specs.Changes.{all_taken_back};
ghost use Rattle.nesc_tree.specs.Phrase as phrase;
ghost use Rattle.nesc_tree.specs.Reading as reading;
ghost use Rattle.nesc_tree.specs.Sorts.{ahead};
ghost use Rattle.nesc_grammar.specs.Grammar as grammar;
ghost use Rattle.nesc_grammar.specs.Declarations as spec;
ghost use Rattle.nesc_parse_types.specs.Gives.{Gives, GivesToken, form_in};
ghost use Rattle.nesc_heads.specs.Gives.{GivesAs};
ghost use Rattle.nesc_declarations.specs.Forms as forms;
ghost use Rattle.nesc_declarations.specs.Views.{declaring_of};

use crate::ends::{Behind, Declared, grouped, type_alone};
use crate::named::{function, named};
use nesc_declarators::closed_variables;
use nesc_heads::no_words;
use nesc_parse_exprs::type_form;
use nesc_parse_types::{Found, Stop, begins_type, expect};
use nesc_tree::{CastType, Change, Site, Sort, TypeNames, ahead};
use nm_base::{Token, beside};
use std::alloc::Global;

fn is_storage(sort: Sort) -> bool
    ensures { result ≡ spec.is_storage sort }
{
    matches!(sort, Sort::Norace | Sort::Static)
}

fn is_static(sort: Sort) -> bool
    ensures { result ≡ spec.is_static sort }
{
    matches!(sort, Sort::Static)
}

/// Whether variables may stand there.
fn has_variables(site: Site) -> bool
    ensures { result ≡ phrase.has_variables site }
{
    match site {
        Site::Header => false,
        Site::Module => true,
    }
}

// The token that is ahead.
fn any_word<'a>(names: &TypeNames, ts: &'a [Token]) -> Found<'a, &'a Token>
    ensures { GivesToken names.now result (reading.pass (ahead names.now ts.now) (λ t. t) names.now ts.now) }
{
    let first = ahead(names, ts);
    expect(names, first, ts)
}

/// Passes over `norace` and `static`, which have no effect behind a first `norace`.
fn storages<'a>(names: &TypeNames, ts: &'a [Token]) -> Found<'a, ()>
    ensures { (spare : ℕ) → Gives names.now result (form_in spare (forms.skipped spec.storages) names.now ts.now) }
{
    let mut rest = ts;
    while is_storage(ahead(names, rest)) {
        let (_, behind) = any_word(names, rest)?;
        rest = behind;
    }
    Ok(((), rest))
}

/// Passes over `static`, which has no effect.
fn statics<'a>(names: &TypeNames, ts: &'a [Token]) -> Found<'a, ()>
    ensures { (spare : ℕ) → Gives names.now result (form_in spare (forms.skipped spec.statics) names.now ts.now) }
{
    let mut rest = ts;
    while is_static(ahead(names, rest)) {
        let (_, behind) = expect(names, Sort::Static, rest)?;
        rest = behind;
    }
    Ok(((), rest))
}

#[tactic(auto, unfolding(nesc_tree::specs::Reading::read))]
fn norace_group<'a>(
    alloc: Global,
    names: &mut TypeNames,
    changes: &mut Vec<Change>,
    spare: usize,
    ts: &'a [Token],
) -> Found<'a, Declared>
    requires { spare < 2 ^ 8 }
    ensures gives { GivesAs declaring_of names.new result (form_in spare forms.norace_group names.old ts.now) }
    ensures noted { all_taken_back changes.new.items names.new ≡ all_taken_back changes.old.items names.old }
{
    let (shared, rest) = type_form(alloc, names, spare, ts)?;
    let (shared, (vars, rest)) = beside(
        shared,
        closed_variables(alloc, names, changes, spare, rest),
    )?;
    Ok((grouped(true, shared, vars), rest))
}

#[tactic(auto, unfolding(nesc_tree::specs::Reading::read))]
fn joined_norace<'a>(
    alloc: Global,
    names: &mut TypeNames,
    changes: &mut Vec<Change>,
    spare: usize,
    ts: &'a [Token],
) -> Found<'a, Declared>
    requires { spare < 2 ^ 8 }
    ensures gives { GivesAs declaring_of names.new result (form_in spare forms.joined_norace names.old ts.now) }
    ensures noted { all_taken_back changes.new.items names.new ≡ all_taken_back changes.old.items names.old }
{
    let (_, rest) = expect(names, Sort::Norace, ts)?;
    let (_, rest) = storages(names, rest)?;
    norace_group(alloc, names, changes, spare, rest)
}

/// Variables with `norace`.
fn norace_variables<'a>(
    alloc: Global,
    names: &mut TypeNames,
    changes: &mut Vec<Change>,
    spare: usize,
    ts: &'a [Token],
) -> Found<'a, Declared>
    requires { spare < 2 ^ 8 }
    ensures gives { GivesAs declaring_of names.new result (form_in spare spec.norace_variables names.old ts.now) }
    ensures noted { all_taken_back changes.new.items names.new ≡ all_taken_back changes.old.items names.old }
{
    joined_norace(alloc, names, changes, spare, ts)
}

/// A type alone.
#[tactic(auto, unfolding(nesc_tree::specs::Reading::read))]
fn alone<'a>(
    names: &TypeNames,
    spare: usize,
    shared: CastType,
    ts: &'a [Token],
) -> Found<'a, Declared>
    ensures { GivesAs declaring_of names.now result (form_in spare (grammar.applied shared spec.type_alone) names.now ts.now) }
{
    let (shared, (_, rest)) = beside(shared, expect(names, Sort::Semi, ts))?;
    Ok((type_alone(shared), rest))
}

// A variable or a function of this type.
fn named_in<'a>(
    alloc: Global,
    names: &mut TypeNames,
    changes: &mut Vec<Change>,
    spare: usize,
    site: Site,
    shared: CastType,
    ts: &'a [Token],
) -> Found<'a, Declared>
    requires few { spare < 2 ^ 8 }
    requires room { 0 < spare }
    ensures gives { GivesAs declaring_of names.new result (form_in spare (grammar.applied shared (spec.named_in site)) names.old ts.now) }
    ensures noted { all_taken_back changes.new.items names.new ≡ all_taken_back changes.old.items names.old }
{
    named(
        alloc,
        names,
        changes,
        spare,
        no_words(),
        shared,
        Behind::Either(site),
        ts,
    )
}

// What is behind a type, by its first token.
fn typed_of<'a>(
    alloc: Global,
    names: &mut TypeNames,
    changes: &mut Vec<Change>,
    spare: usize,
    site: Site,
    first: Sort,
    shared: CastType,
    ts: &'a [Token],
) -> Found<'a, Declared>
    requires few { spare < 2 ^ 8 }
    requires room { 0 < spare }
    ensures gives { GivesAs declaring_of names.new result (form_in spare (grammar.applied shared (spec.typed_of site first)) names.old ts.now) }
    ensures noted { all_taken_back changes.new.items names.new ≡ all_taken_back changes.old.items names.old }
{
    match first {
        Sort::Semi => alone(names, spare, shared, ts),
        Sort::Star | Sort::Word | Sort::TypeName => {
            named_in(alloc, names, changes, spare, site, shared, ts)
        }
        _ => Err(Stop::Syntax(ts)),
    }
}

fn typed_end<'a>(
    alloc: Global,
    names: &mut TypeNames,
    changes: &mut Vec<Change>,
    spare: usize,
    site: Site,
    shared: CastType,
    ts: &'a [Token],
) -> Found<'a, Declared>
    requires few { spare < 2 ^ 8 }
    requires room { 0 < spare }
    ensures gives { GivesAs declaring_of names.new result (form_in spare (grammar.applied shared (forms.typed_end site)) names.old ts.now) }
    ensures noted { all_taken_back changes.new.items names.new ≡ all_taken_back changes.old.items names.old }
{
    let first = ahead(names, ts);
    typed_of(alloc, names, changes, spare, site, first, shared, ts)
}

/// A type, and what is declared with it.
#[tactic(auto, unfolding(nesc_tree::specs::Reading::read))]
fn typed<'a>(
    alloc: Global,
    names: &mut TypeNames,
    changes: &mut Vec<Change>,
    spare: usize,
    site: Site,
    ts: &'a [Token],
) -> Found<'a, Declared>
    requires few { spare < 2 ^ 8 }
    requires room { 0 < spare }
    ensures gives { GivesAs declaring_of names.new result (form_in spare (forms.typed site) names.old ts.now) }
    ensures noted { all_taken_back changes.new.items names.new ≡ all_taken_back changes.old.items names.old }
{
    let (shared, rest) = type_form(alloc, names, spare, ts)?;
    typed_end(alloc, names, changes, spare, site, shared, rest)
}

/// A type, and a variable or a function of it.
#[tactic(auto, unfolding(nesc_tree::specs::Reading::read))]
fn static_typed<'a>(
    alloc: Global,
    names: &mut TypeNames,
    changes: &mut Vec<Change>,
    spare: usize,
    ts: &'a [Token],
) -> Found<'a, Declared>
    requires few { spare < 2 ^ 8 }
    requires room { 0 < spare }
    ensures gives { GivesAs declaring_of names.new result (form_in spare forms.static_typed names.old ts.now) }
    ensures noted { all_taken_back changes.new.items names.new ≡ all_taken_back changes.old.items names.old }
{
    let (shared, rest) = type_form(alloc, names, spare, ts)?;
    named_in(alloc, names, changes, spare, Site::Module, shared, rest)
}

// Behind `static`, where variables may stand.
fn static_of<'a>(
    alloc: Global,
    names: &mut TypeNames,
    changes: &mut Vec<Change>,
    spare: usize,
    first: Sort,
    ts: &'a [Token],
) -> Found<'a, Declared>
    requires few { spare < 2 ^ 8 }
    requires room { 0 < spare }
    ensures gives { GivesAs declaring_of names.new result (form_in spare (spec.static_of first) names.old ts.now) }
    ensures noted { all_taken_back changes.new.items names.new ≡ all_taken_back changes.old.items names.old }
{
    match first {
        Sort::Norace => norace_variables(alloc, names, changes, spare, ts),
        Sort::Async | Sort::Default | Sort::Inline | Sort::Task | Sort::Item => {
            function(alloc, names, changes, spare, ts)
        }
        _ => {
            if begins_type(first) {
                static_typed(alloc, names, changes, spare, ts)
            } else {
                Err(Stop::Syntax(ts))
            }
        }
    }
}

fn static_end<'a>(
    alloc: Global,
    names: &mut TypeNames,
    changes: &mut Vec<Change>,
    spare: usize,
    ts: &'a [Token],
) -> Found<'a, Declared>
    requires few { spare < 2 ^ 8 }
    requires room { 0 < spare }
    ensures gives { GivesAs declaring_of names.new result (form_in spare forms.static_end names.old ts.now) }
    ensures noted { all_taken_back changes.new.items names.new ≡ all_taken_back changes.old.items names.old }
{
    let first = ahead(names, ts);
    static_of(alloc, names, changes, spare, first, ts)
}

#[tactic(auto, unfolding(nesc_tree::specs::Reading::read))]
fn joined_static<'a>(
    alloc: Global,
    names: &mut TypeNames,
    changes: &mut Vec<Change>,
    spare: usize,
    ts: &'a [Token],
) -> Found<'a, Declared>
    requires few { spare < 2 ^ 8 }
    requires room { 0 < spare }
    ensures gives { GivesAs declaring_of names.new result (form_in spare forms.joined_static names.old ts.now) }
    ensures noted { all_taken_back changes.new.items names.new ≡ all_taken_back changes.old.items names.old }
{
    let (_, rest) = expect(names, Sort::Static, ts)?;
    let (_, rest) = statics(names, rest)?;
    static_end(alloc, names, changes, spare, rest)
}

/// A declaration that begins with `static`.
fn static_decl<'a>(
    alloc: Global,
    names: &mut TypeNames,
    changes: &mut Vec<Change>,
    spare: usize,
    site: Site,
    ts: &'a [Token],
) -> Found<'a, Declared>
    requires few { spare < 2 ^ 8 }
    requires room { 0 < spare }
    ensures gives { GivesAs declaring_of names.new result (form_in spare (spec.static_decl site) names.old ts.now) }
    ensures noted { all_taken_back changes.new.items names.new ≡ all_taken_back changes.old.items names.old }
{
    match site {
        Site::Header => function(alloc, names, changes, spare, ts),
        Site::Module => joined_static(alloc, names, changes, spare, ts),
    }
}

/// A declaration that declares no type name, by its first token.
pub fn declaring<'a>(
    alloc: Global,
    names: &mut TypeNames,
    changes: &mut Vec<Change>,
    spare: usize,
    site: Site,
    first: Sort,
    ts: &'a [Token],
) -> Found<'a, Declared>
    requires few { spare < 2 ^ 8 }
    requires room { 0 < spare }
    ensures gives { GivesAs declaring_of names.new result (form_in spare (spec.declaring site first) names.old ts.now) }
    ensures noted { all_taken_back changes.new.items names.new ≡ all_taken_back changes.old.items names.old }
{
    match first {
        Sort::Norace => {
            if has_variables(site) {
                norace_variables(alloc, names, changes, spare, ts)
            } else {
                Err(Stop::Syntax(ts))
            }
        }
        Sort::Static => static_decl(alloc, names, changes, spare, site, ts),
        Sort::Async | Sort::Default | Sort::Inline | Sort::Task | Sort::Item => {
            function(alloc, names, changes, spare, ts)
        }
        _ => {
            if begins_type(first) {
                typed(alloc, names, changes, spare, site, ts)
            } else {
                Err(Stop::Syntax(ts))
            }
        }
    }
}
