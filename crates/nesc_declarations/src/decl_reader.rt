//! Reading declarations outside of blocks, one behind the other.

ghost use Rattle.std.specs.Prelude.{◌≡◌, ◌<◌, ◌^◌, OnOk};
ghost use Rattle.nesc_tree.specs.Changes.{all_taken_back};
ghost use Rattle.nesc_tree.specs.Phrase as phrase;
ghost use Rattle.nesc_grammar.specs.Grammar as grammar;
ghost use Rattle.nesc_grammar.specs.Declarations as spec;
ghost use Rattle.nesc_parse_types.specs.Gives.{Gives, form_in};
ghost use Rattle.nesc_declarations.specs.Forms as forms;
ghost use Rattle.nesc_declarations.specs.Forms.{decl_in};
ghost use Rattle.nesc_declarations.specs.Views.{declaring_of};

use crate::declaring::declaring;
use crate::ends::{Declared, decl_of};
use nesc_declarators::typedef;
use nesc_parse_decls::{added, no_list};
use nesc_parse_types::{Found, begins_type, expect};
use nesc_scopes::hide;
use nesc_tree::{Change, Decl, Site, Sort, TypeNames, Variable, ahead};
use nm_base::{List, NoMemory, Token, beside};
use std::alloc::Global;

/// Whether a declaration outside of blocks begins with a token of this sort.
pub fn begins_decl(site: Site, sort: Sort) -> bool
    ensures { result ≡ phrase.begins_decl site sort }
{
    match sort {
        Sort::Norace => matches!(site, Site::Module),
        Sort::Typedef
        | Sort::Static
        | Sort::Async
        | Sort::Default
        | Sort::Inline
        | Sort::Task
        | Sort::Item => true,
        _ => begins_type(sort),
    }
}

// From here on each variable's name hides a type name.
fn hide_variables(
    names: &mut TypeNames,
    changes: &mut Vec<Change>,
    vars: &[Variable],
) -> Result<(), NoMemory>
    ensures hidden { OnOk result (names.new ≡ spec.all_hidden (spec.texts vars.now) names.old) }
    ensures noted { all_taken_back changes.new.items names.new ≡ all_taken_back changes.old.items names.old }
{
    let mut left = vars;
    while let [first, rest @ ..] = left {
        hide(names, changes, &first.declarator.name)?;
        left = rest;
    }
    Ok(())
}

// From here on what is declared hides type names.
fn hide_declared(
    names: &mut TypeNames,
    changes: &mut Vec<Change>,
    declared: &Declared,
) -> Result<(), NoMemory>
    ensures hidden { OnOk result (names.new ≡ spec.all_hidden (declaring_of declared.now).hides names.old) }
    ensures noted { all_taken_back changes.new.items names.new ≡ all_taken_back changes.old.items names.old }
{
    match declared {
        Declared::Type(..) => Ok(()),
        Declared::Vars(group) => hide_variables(names, changes, group.vars.as_slice()),
        Declared::Func(head, _) => match &head.item {
            Some(_) => Ok(()),
            None => hide(names, changes, &head.name),
        },
    }
}

// A declaration that hides names from its end on, by its first token.
#[tactic(auto, unfolding(nesc_tree::specs::Reading::read))]
fn hiding<'a>(
    alloc: Global,
    names: &mut TypeNames,
    changes: &mut Vec<Change>,
    spare: usize,
    site: Site,
    first: Sort,
    ts: &'a [Token],
) -> Found<'a, Decl>
    requires few { spare < 2 ^ 8 }
    requires room { 0 < spare }
    ensures gives { Gives names.new result (form_in spare (spec.hiding (spec.declaring site first)) names.old ts.now) }
    ensures noted { all_taken_back changes.new.items names.new ≡ all_taken_back changes.old.items names.old }
{
    let (declared, rest) = declaring(alloc, names, changes, spare, site, first, ts)?;
    let hidden = hide_declared(names, changes, &declared);
    let (declared, _) = beside(declared, hidden)?;
    Ok((decl_of(declared), rest))
}

#[tactic(auto, unfolding(nesc_tree::specs::Reading::read))]
fn typedef_decl<'a>(
    alloc: Global,
    names: &mut TypeNames,
    changes: &mut Vec<Change>,
    spare: usize,
    ts: &'a [Token],
) -> Found<'a, Decl>
    requires { spare < 2 ^ 8 }
    ensures gives { Gives names.new result (form_in spare spec.typedef_decl names.old ts.now) }
    ensures noted { all_taken_back changes.new.items names.new ≡ all_taken_back changes.old.items names.old }
{
    let (_, rest) = expect(names, Sort::Typedef, ts)?;
    typedef(alloc, names, changes, spare, rest)
}

// A declaration by its first token.
fn decl_at<'a>(
    alloc: Global,
    names: &mut TypeNames,
    changes: &mut Vec<Change>,
    spare: usize,
    site: Site,
    first: Sort,
    ts: &'a [Token],
) -> Found<'a, Decl>
    requires few { spare < 2 ^ 8 }
    requires room { 0 < spare }
    ensures gives { Gives names.new result (form_in spare (spec.decl_of site first) names.old ts.now) }
    ensures noted { all_taken_back changes.new.items names.new ≡ all_taken_back changes.old.items names.old }
{
    match first {
        Sort::Typedef => typedef_decl(alloc, names, changes, spare, ts),
        _ => hiding(alloc, names, changes, spare, site, first, ts),
    }
}

/// A declaration outside of blocks, with at most `levels` levels, of which it takes one itself.
pub fn decl<'a>(
    alloc: Global,
    names: &mut TypeNames,
    changes: &mut Vec<Change>,
    levels: usize,
    site: Site,
    ts: &'a [Token],
) -> Found<'a, Decl>
    requires few { levels < 2 ^ 8 }
    requires room { 1 < levels }
    ensures gives { Gives names.new result (decl_in levels site names.old ts.now) }
    ensures noted { all_taken_back changes.new.items names.new ≡ all_taken_back changes.old.items names.old }
{
    let first = ahead(names, ts);
    decl_at(alloc, names, changes, levels - 1, site, first, ts)
}

#[tactic(auto, unfolding(nesc_tree::specs::Reading::read))]
fn another_decl<'a>(
    alloc: Global,
    names: &mut TypeNames,
    changes: &mut Vec<Change>,
    spare: usize,
    site: Site,
    so_far: List<Decl>,
    ts: &'a [Token],
) -> Found<'a, List<Decl>>
    requires few { spare < 2 ^ 8 }
    requires room { 1 < spare }
    ensures gives { Gives names.new result (form_in spare (grammar.applied so_far (forms.another_decl site)) names.old ts.now) }
    ensures noted { all_taken_back changes.new.items names.new ≡ all_taken_back changes.old.items names.old }
{
    let (so_far, (next, rest)) = beside(so_far, decl(alloc, names, changes, spare, site, ts))?;
    Ok((added(so_far, next)?, rest))
}

/// Declarations one behind the other, as long as a token begins one.
pub fn decls<'a>(
    alloc: Global,
    names: &mut TypeNames,
    changes: &mut Vec<Change>,
    spare: usize,
    site: Site,
    ts: &'a [Token],
) -> Found<'a, List<Decl>>
    requires few { spare < 2 ^ 8 }
    requires room { 1 < spare }
    ensures gives { Gives names.new result (form_in spare (spec.decls_before site) names.old ts.now) }
    ensures noted { all_taken_back changes.new.items names.new ≡ all_taken_back changes.old.items names.old }
{
    let mut list = no_list(alloc);
    let mut rest = ts;
    while begins_decl(site, ahead(names, rest)) {
        let (so_far, behind) = another_decl(alloc, names, changes, spare, site, list, rest)?;
        list = so_far;
        rest = behind;
    }
    Ok((list, rest))
}
