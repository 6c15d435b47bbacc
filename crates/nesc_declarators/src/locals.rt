//! Reading declarations in blocks, and the one that begins a `for` (C99 6.8.2, 6.8.5).

ghost use Rattle.std.specs.Prelude.{◌≡◌, ◌<◌, ◌^◌};
ghost use Rattle.nesc_tree.specs.Changes.{all_taken_back};
ghost use Rattle.nesc_tree.specs.Form.{Form};
ghost use Rattle.nesc_tree.specs.Phrase as phrase;
ghost use Rattle.nesc_grammar.specs.Statements as statements;
ghost use Rattle.nesc_parse_types.specs.Gives.{Gives, form_in};
ghost use Rattle.nesc_declarators.specs.Locals.{local_in};
ghost use Rattle.nesc_declarators.specs.Parts as parts;

use crate::parts::{for_group, local_decl, local_group};
use crate::type_names::typedef;
use crate::variables::{closed_variables, variables};
use nesc_parse_decls::no_list;
use nesc_parse_exprs::{refused, type_form};
use nesc_parse_types::{Found, Stop, begins_type, expect};
use nesc_tree::{Change, ForStart, Sort, Stmt, TypeNames, Variable, ahead};
use nm_base::{List, Token, beside};
use std::alloc::Global;

/// Whether a declaration in a block begins with a token of this sort.
pub fn begins_local(sort: Sort) -> bool
    ensures { result ≡ phrase.begins_local sort }
{
    match sort {
        Sort::Typedef => true,
        _ => begins_type(sort),
    }
}

// Whether a declarator begins with a token of this sort.
fn begins_variable(sort: Sort) -> bool
    ensures { result ≡ parts.begins_variable sort }
{
    matches!(sort, Sort::Star | Sort::Word | Sort::TypeName)
}

fn maybe_variables<'a>(
    alloc: Global,
    names: &mut TypeNames,
    changes: &mut Vec<Change>,
    spare: usize,
    ts: &'a [Token],
) -> Found<'a, List<Variable>>
    requires { spare < 2 ^ 8 }
    ensures gives { Gives names.new result (form_in spare parts.maybe_variables names.old ts.now) }
    ensures noted { all_taken_back changes.new.items names.new ≡ all_taken_back changes.old.items names.old }
{
    if begins_variable(ahead(names, ts)) {
        variables(alloc, names, changes, spare, ts)
    } else {
        Ok((no_list(alloc), ts))
    }
}

#[tactic(auto, unfolding(nesc_tree::specs::Reading::read))]
fn local_end<'a>(
    alloc: Global,
    names: &mut TypeNames,
    changes: &mut Vec<Change>,
    spare: usize,
    ts: &'a [Token],
) -> Found<'a, List<Variable>>
    requires { spare < 2 ^ 8 }
    ensures gives { Gives names.new result (form_in spare parts.local_end names.old ts.now) }
    ensures noted { all_taken_back changes.new.items names.new ≡ all_taken_back changes.old.items names.old }
{
    let (list, rest) = maybe_variables(alloc, names, changes, spare, ts)?;
    let (_, rest) = expect(names, Sort::Semi, rest)?;
    Ok((list, rest))
}

/// Variables or a type in a block.
#[tactic(auto, unfolding(nesc_tree::specs::Reading::read))]
fn local_variables<'a>(
    alloc: Global,
    names: &mut TypeNames,
    changes: &mut Vec<Change>,
    spare: usize,
    ts: &'a [Token],
) -> Found<'a, Stmt>
    requires { spare < 2 ^ 8 }
    ensures gives { Gives names.new result (form_in spare statements.local_variables names.old ts.now) }
    ensures noted { all_taken_back changes.new.items names.new ≡ all_taken_back changes.old.items names.old }
{
    let (shared, rest) = type_form(alloc, names, spare, ts)?;
    let (vars, rest) = local_end(alloc, names, changes, spare, rest)?;
    Ok((local_group(alloc, shared, vars)?, rest))
}

/// A type name in a block.
#[tactic(auto, unfolding(nesc_tree::specs::Reading::read))]
fn local_typedef<'a>(
    alloc: Global,
    names: &mut TypeNames,
    changes: &mut Vec<Change>,
    spare: usize,
    ts: &'a [Token],
) -> Found<'a, Stmt>
    requires { spare < 2 ^ 8 }
    ensures gives { Gives names.new result (form_in spare statements.local_typedef names.old ts.now) }
    ensures noted { all_taken_back changes.new.items names.new ≡ all_taken_back changes.old.items names.old }
{
    let (keyword, rest) = expect(names, Sort::Typedef, ts)?;
    let (decl, rest) = typedef(alloc, names, changes, spare, rest)?;
    Ok((local_decl(alloc, decl, keyword.pos)?, rest))
}

fn local_of<'a>(
    alloc: Global,
    names: &mut TypeNames,
    changes: &mut Vec<Change>,
    spare: usize,
    ts: &'a [Token],
) -> Found<'a, Stmt>
    requires { spare < 2 ^ 8 }
    ensures gives { Gives names.new result (form_in spare (Form.by statements.local_of) names.old ts.now) }
    ensures noted { all_taken_back changes.new.items names.new ≡ all_taken_back changes.old.items names.old }
{
    let first = ahead(names, ts);
    match first {
        Sort::Typedef => local_typedef(alloc, names, changes, spare, ts),
        _ => {
            if begins_type(first) {
                local_variables(alloc, names, changes, spare, ts)
            } else {
                Err(Stop::Syntax(ts))
            }
        }
    }
}

/// A declaration in a block, with at most `levels` levels.
pub fn local<'a>(
    alloc: Global,
    names: &mut TypeNames,
    changes: &mut Vec<Change>,
    levels: usize,
    ts: &'a [Token],
) -> Found<'a, Stmt>
    requires { levels < 2 ^ 8 }
    ensures gives { Gives names.new result (local_in levels names.old ts.now) }
    ensures noted { all_taken_back changes.new.items names.new ≡ all_taken_back changes.old.items names.old }
{
    if levels == 0 {
        return Err(refused(begins_local(ahead(names, ts)), ts));
    }
    local_of(alloc, names, changes, levels - 1, ts)
}

/// The declaration that begins a `for`, with its semicolon.
#[tactic(auto, unfolding(nesc_tree::specs::Reading::read))]
pub fn for_variables<'a>(
    alloc: Global,
    names: &mut TypeNames,
    changes: &mut Vec<Change>,
    spare: usize,
    ts: &'a [Token],
) -> Found<'a, ForStart>
    requires { spare < 2 ^ 8 }
    ensures gives { Gives names.new result (form_in spare statements.for_variables names.old ts.now) }
    ensures noted { all_taken_back changes.new.items names.new ≡ all_taken_back changes.old.items names.old }
{
    let (shared, rest) = type_form(alloc, names, spare, ts)?;
    let (shared, (vars, rest)) = beside(
        shared,
        closed_variables(alloc, names, changes, spare, rest),
    )?;
    Ok((for_group(shared, vars), rest))
}
