//! Reading type names, in force from behind their declarators on (C99 6.7.7).

ghost use Rattle.std.specs.Prelude.{◌≡◌, ◌<◌, ◌^◌};
ghost use Rattle.nesc_tree.specs.Changes.{all_taken_back};
ghost use Rattle.nesc_grammar.specs.Grammar as grammar;
ghost use Rattle.nesc_grammar.specs.Declarations as spec;
ghost use Rattle.nesc_parse_types.specs.Gives.{Gives, form_in};
ghost use Rattle.nesc_declarators.specs.Parts as parts;

use crate::declarators::declarator;
use crate::parts::type_name;
use nesc_parse_decls::attributes;
use nesc_parse_exprs::type_form;
use nesc_parse_types::{Found, expect};
use nesc_scopes::declare_type;
use nesc_tree::{Attr, CastType, Change, Decl, Sort, TypeNames, Variable};
use nm_base::{List, Token, beside};
use std::alloc::Global;

/// A declarator, from behind which its name is a type name.
#[tactic(auto, unfolding(nesc_tree::specs::Reading::read))]
fn naming_variable<'a>(
    alloc: Global,
    names: &mut TypeNames,
    changes: &mut Vec<Change>,
    spare: usize,
    ts: &'a [Token],
) -> Found<'a, Variable>
    requires { spare < 2 ^ 8 }
    ensures gives { Gives names.new result (form_in spare parts.naming_variable names.old ts.now) }
    ensures noted { all_taken_back changes.new.items names.new ≡ all_taken_back changes.old.items names.old }
{
    let (variable, rest) = declarator(alloc, names, spare, ts)?;
    let declared = declare_type(names, changes, &variable.declarator.name);
    let (variable, _) = beside(variable, declared)?;
    Ok((variable, rest))
}

#[tactic(auto, unfolding(nesc_tree::specs::Reading::read))]
fn type_name_end<'a>(
    alloc: Global,
    names: &TypeNames,
    spare: usize,
    ts: &'a [Token],
) -> Found<'a, List<Attr>>
    requires { spare < 2 ^ 8 }
    ensures { Gives names.now result (form_in spare parts.type_name_end names.now ts.now) }
{
    let (attrs, rest) = attributes(alloc, names, spare, ts)?;
    let (attrs, (_, rest)) = beside(attrs, expect(names, Sort::Semi, rest))?;
    Ok((attrs, rest))
}

#[tactic(auto, unfolding(nesc_tree::specs::Reading::read))]
fn type_name_of<'a>(
    alloc: Global,
    names: &mut TypeNames,
    changes: &mut Vec<Change>,
    spare: usize,
    shared: CastType,
    ts: &'a [Token],
) -> Found<'a, Decl>
    requires { spare < 2 ^ 8 }
    ensures gives { Gives names.new result (form_in spare (grammar.applied shared spec.type_name_of) names.old ts.now) }
    ensures noted { all_taken_back changes.new.items names.new ≡ all_taken_back changes.old.items names.old }
{
    let (shared, (variable, rest)) = beside(
        shared,
        naming_variable(alloc, names, changes, spare, ts),
    )?;
    let ((shared, variable), (attrs, rest)) = beside(
        (shared, variable),
        type_name_end(alloc, names, spare, rest),
    )?;
    Ok((type_name(variable, attrs, shared), rest))
}

/// What is behind `typedef`.
#[tactic(auto, unfolding(nesc_tree::specs::Reading::read))]
pub fn typedef<'a>(
    alloc: Global,
    names: &mut TypeNames,
    changes: &mut Vec<Change>,
    spare: usize,
    ts: &'a [Token],
) -> Found<'a, Decl>
    requires { spare < 2 ^ 8 }
    ensures gives { Gives names.new result (form_in spare parts.named_type names.old ts.now) }
    ensures noted { all_taken_back changes.new.items names.new ≡ all_taken_back changes.old.items names.old }
{
    let (shared, rest) = type_form(alloc, names, spare, ts)?;
    type_name_of(alloc, names, changes, spare, shared, rest)
}
