//! Reading modules and configurations (nesC 1.3 Reference).

ghost use Rattle.std.specs.Prelude.{◌≡◌, ◌<◌, ◌^◌, false, true};
ghost use Rattle.nesc_tree.specs.Changes.{all_taken_back};
ghost use Rattle.nesc_grammar.specs.Grammar as grammar;
ghost use Rattle.nesc_grammar.specs.Components as spec;
ghost use Rattle.nesc_parse_types.specs.Gives.{Gives, form_in};
ghost use Rattle.nesc_parse_comp.specs.Reads as reads;

use crate::parts::{config_of, module_of};
use nesc_configurations::lines;
use nesc_declarations::decls;
use nesc_parse_types::{Found, Stop, expect};
use nesc_specifications::head;
use nesc_tree::{Change, ConfLine, Decl, Part, Site, Sort, TypeNames, ahead};
use nm_base::{List, Token};
use std::alloc::Global;

/// The declarations of a module, behind `implementation`.
#[tactic(auto, unfolding(nesc_tree::specs::Reading::read))]
fn module_body<'a>(
    alloc: Global,
    names: &mut TypeNames,
    changes: &mut Vec<Change>,
    spare: usize,
    ts: &'a [Token],
) -> Found<'a, List<Decl>>
    requires few { spare < 2 ^ 8 }
    requires room { 1 < spare }
    ensures gives { Gives names.new result (form_in spare reads.module_body names.old ts.now) }
    ensures noted { all_taken_back changes.new.items names.new ≡ all_taken_back changes.old.items names.old }
{
    let (_, rest) = expect(names, Sort::Implementation, ts)?;
    let (_, rest) = expect(names, Sort::LBrace, rest)?;
    let (list, rest) = decls(alloc, names, changes, spare, Site::Module, rest)?;
    let (_, rest) = expect(names, Sort::RBrace, rest)?;
    Ok((list, rest))
}

#[tactic(auto, unfolding(nesc_tree::specs::Reading::read))]
fn read_module<'a>(
    alloc: Global,
    names: &mut TypeNames,
    changes: &mut Vec<Change>,
    spare: usize,
    is_generic: bool,
    ts: &'a [Token],
) -> Found<'a, Part>
    requires few { spare < 2 ^ 8 }
    requires room { 1 < spare }
    ensures gives { Gives names.new result (reads.module_part spare is_generic names.old ts.now) }
    ensures noted { all_taken_back changes.new.items names.new ≡ all_taken_back changes.old.items names.old }
{
    let (_, rest) = expect(names, Sort::Module, ts)?;
    let (head, rest) = head(alloc, names, changes, spare, is_generic, rest)?;
    let (list, rest) = module_body(alloc, names, changes, spare, rest)?;
    Ok((module_of(head, list), rest))
}

/// The lines of a configuration, behind `implementation`.
#[tactic(auto, unfolding(nesc_tree::specs::Reading::read))]
fn configuration_body<'a>(
    alloc: Global,
    names: &mut TypeNames,
    changes: &mut Vec<Change>,
    spare: usize,
    ts: &'a [Token],
) -> Found<'a, List<ConfLine>>
    requires few { spare < 2 ^ 8 }
    requires room { 1 < spare }
    ensures gives { Gives names.new result (form_in spare reads.configuration_body names.old ts.now) }
    ensures noted { all_taken_back changes.new.items names.new ≡ all_taken_back changes.old.items names.old }
{
    let (_, rest) = expect(names, Sort::Implementation, ts)?;
    let (list, rest) = lines(alloc, names, changes, spare, rest)?;
    Ok((list, rest))
}

#[tactic(auto, unfolding(nesc_tree::specs::Reading::read))]
fn read_configuration<'a>(
    alloc: Global,
    names: &mut TypeNames,
    changes: &mut Vec<Change>,
    spare: usize,
    is_generic: bool,
    ts: &'a [Token],
) -> Found<'a, Part>
    requires few { spare < 2 ^ 8 }
    requires room { 1 < spare }
    ensures gives { Gives names.new result (reads.configuration_part spare is_generic names.old ts.now) }
    ensures noted { all_taken_back changes.new.items names.new ≡ all_taken_back changes.old.items names.old }
{
    let (_, rest) = expect(names, Sort::Configuration, ts)?;
    let (head, rest) = head(alloc, names, changes, spare, is_generic, rest)?;
    let (list, rest) = configuration_body(alloc, names, changes, spare, rest)?;
    Ok((config_of(head, list), rest))
}

// A component by its first token, behind `generic` where that is there.
fn component_by<'a>(
    alloc: Global,
    names: &mut TypeNames,
    changes: &mut Vec<Change>,
    spare: usize,
    is_generic: bool,
    first: Sort,
    ts: &'a [Token],
) -> Found<'a, Part>
    requires few { spare < 2 ^ 8 }
    requires room { 1 < spare }
    ensures gives { Gives names.new result (form_in spare (grammar.applied is_generic (spec.component_by first)) names.old ts.now) }
    ensures noted { all_taken_back changes.new.items names.new ≡ all_taken_back changes.old.items names.old }
{
    match first {
        Sort::Module => read_module(alloc, names, changes, spare, is_generic, ts),
        Sort::Configuration => read_configuration(alloc, names, changes, spare, is_generic, ts),
        _ => Err(Stop::Syntax(ts)),
    }
}

#[tactic(auto, unfolding(nesc_tree::specs::Reading::read))]
fn read_generic<'a>(
    alloc: Global,
    names: &mut TypeNames,
    changes: &mut Vec<Change>,
    spare: usize,
    ts: &'a [Token],
) -> Found<'a, Part>
    requires few { spare < 2 ^ 8 }
    requires room { 1 < spare }
    ensures gives { Gives names.new result (reads.generic_part spare names.old ts.now) }
    ensures noted { all_taken_back changes.new.items names.new ≡ all_taken_back changes.old.items names.old }
{
    let (_, rest) = expect(names, Sort::Generic, ts)?;
    let first = ahead(names, rest);
    component_by(alloc, names, changes, spare, true, first, rest)
}

/// A module or configuration by its first token; names of its own are in force behind it.
pub fn component<'a>(
    alloc: Global,
    names: &mut TypeNames,
    changes: &mut Vec<Change>,
    spare: usize,
    first: Sort,
    ts: &'a [Token],
) -> Found<'a, Part>
    requires few { spare < 2 ^ 8 }
    requires room { 1 < spare }
    ensures gives { Gives names.new result (form_in spare (spec.component_part first) names.old ts.now) }
    ensures noted { all_taken_back changes.new.items names.new ≡ all_taken_back changes.old.items names.old }
{
    match first {
        Sort::Generic => read_generic(alloc, names, changes, spare, ts),
        _ => component_by(alloc, names, changes, spare, false, first, ts),
    }
}
