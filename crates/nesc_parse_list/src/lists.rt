//! Reading declarations up to a token that ends them.

ghost use Rattle.std.specs.Prelude.{◌≡◌, IfOk, OnErr, ℕ, ◌<◌};
ghost use Rattle.nesc_tree.specs.Changes.{all_taken_back};
ghost use Rattle.nesc_tree.specs.Form.{Form};
ghost use Rattle.nesc_tree.specs.Phrase as phrase;
ghost use Rattle.nesc_grammar.specs.Declarations as spec;
ghost use Rattle.nesc_grammar.specs.Laws.{answer};
ghost use Rattle.nesc_parse_types.specs.Gives.{Gives, GivesToken, form_in};
ghost use Rattle.nesc_left_out.specs.Probes.{is_ended};
ghost use Rattle.nesc_parse_list.specs.Listed.{Ends, follows, most, spare};

use nesc_declarations::decls;
use nesc_left_out::{Reader, is_ended};
use nesc_parse_types::{Found, Stop, expect};
use nesc_scopes::give_back;
use nesc_tree::{Change, Decl, Site, Sort, TypeNames, ahead};
use nm_base::{List, MAX_DEPTH, NoMemory, Token};
use std::alloc::Global;

/// A list of declarations is read with two levels more than a tree may have; this is one of them.
const SPARE: usize = MAX_DEPTH as usize + 1;

// Whether a token of this sort ends the declarations of a header or a module.
fn ends_decls(sort: Sort) -> bool
    ensures { result ≡ phrase.ends_decls sort }
{
    matches!(
        sort,
        Sort::RBrace | Sort::Module | Sort::Configuration | Sort::Generic | Sort::Interface
    )
}

// Whether such a token follows, or nothing.
fn is_followed(sort: Sort) -> bool
    ensures { result ≡ follows sort }
{
    match sort {
        Sort::End => true,
        _ => ends_decls(sort),
    }
}

// The token that ends the declarations.
fn end_token<'a>(names: &TypeNames, ts: &'a [Token]) -> Found<'a, &'a Token>
    ensures { (levels : ℕ) → 0 < levels → GivesToken names.now result (form_in levels (Form.by spec.end_token) names.now ts.now) }
{
    let first = ahead(names, ts);
    if ends_decls(first) {
        expect(names, first, ts)
    } else {
        Err(Stop::Syntax(ts))
    }
}

// Declarations and the token that ends them.
#[tactic(auto, unfolding(nesc_tree::specs::Reading::read))]
fn closed_decls<'a>(
    alloc: Global,
    names: &mut TypeNames,
    changes: &mut Vec<Change>,
    site: Site,
    ts: &'a [Token],
) -> Found<'a, List<Decl>>
    ensures gives { Gives names.new result (form_in spare (spec.ended_decls site) names.old ts.now) }
    ensures noted { all_taken_back changes.new.items names.new ≡ all_taken_back changes.old.items names.old }
{
    let (list, rest) = decls(alloc, names, changes, SPARE, site, ts)?;
    let (_, rest) = end_token(names, rest)?;
    Ok((list, rest))
}

// Whether reading declarations comes to the last of these tokens.
fn reads_list(
    alloc: Global,
    names: &mut TypeNames,
    site: Site,
    ts: &[Token],
) -> Result<bool, NoMemory>
    ensures told { IfOk result (λ b. b ≡ is_ended (answer most (phrase.Phrase.decls site) names.old ts.now)) }
    ensures back { names.new ≡ names.old }
{
    let mut changes = Vec::new(alloc);
    let found = closed_decls(alloc, names, &mut changes, site, ts);
    let ended = is_ended(found);
    give_back(names, changes);
    ended
}

/// Declarations of a header or a module, with the token that ends them.
#[derive(Clone, Copy)]
pub struct Declarations {
    pub site: Site,
}

impl Reader for Declarations {
    ghost use Rattle.nesc_tree.specs.Phrase.{Phrase};
    ghost use Rattle.nesc_parse_list.specs.Listed.{spare};

    ghost phrase = { λ r. Phrase.decls r.site };

    ghost spare = { λ r. spare };

    fn reads_all(
        &self,
        alloc: Global,
        names: &mut TypeNames,
        ts: &[Token],
    ) -> Result<bool, NoMemory> {
        reads_list(alloc, names, self.site, ts)
    }
}

/// Declarations up to a token that ends them, or to the end. Where there are none, the names are what they were.
pub fn ended<'a>(
    alloc: Global,
    names: &mut TypeNames,
    site: Site,
    ts: &'a [Token],
) -> Found<'a, List<Decl>>
    ensures ends { Ends site names.old ts.now names.new result }
    ensures kept { OnErr result (names.new ≡ names.old) }
{
    let mut changes = Vec::new(alloc);
    match decls(alloc, names, &mut changes, SPARE, site, ts) {
        Ok((list, rest)) => {
            if is_followed(ahead(names, rest)) {
                return Ok((list, rest));
            }
            give_back(names, changes);
            Err(Stop::Syntax(rest))
        }
        Err(stop) => {
            give_back(names, changes);
            Err(stop)
        }
    }
}
