//! Reading what a file holds: declarations of headers, and an interface or a component behind them.

ghost use Rattle.std.specs.Prelude.{◌≡◌, ◌<◌, ◌^◌, IfOk};
ghost use Rattle.nesc_tree.specs.Changes.{all_taken_back};
ghost use Rattle.nesc_tree.specs.Form.{Form};
ghost use Rattle.nesc_grammar.specs.Components as spec;
ghost use Rattle.nesc_grammar.specs.Laws.{answer};
ghost use Rattle.nesc_parse_types.specs.Gives.{Gives, form_in};
ghost use Rattle.nesc_left_out.specs.Probes.{is_ended};
ghost use Rattle.nesc_parse_comp.specs.Reads as reads;
ghost use Rattle.nesc_parse_comp.specs.Units.{most, phrase_of, spare};

use crate::components::component;
use crate::kinds::UnitKind;
use crate::parts::unit_of;
use nesc_declarations::decls;
use nesc_interfaces::interface;
use nesc_left_out::{Reader, is_ended};
use nesc_parse_types::{Found, Stop};
use nesc_scopes::give_back;
use nesc_tree::{Change, Part, Site, Sort, TypeNames, Unit, ahead};
use nm_base::{MAX_DEPTH, NoMemory, Token};
use std::alloc::Global;

/// A file is read with two levels more than a tree may have; this is one of them.
const SPARE: usize = MAX_DEPTH as usize + 1;

// An interface by its first token.
fn interface_part<'a>(
    alloc: Global,
    names: &mut TypeNames,
    changes: &mut Vec<Change>,
    spare: usize,
    first: Sort,
    ts: &'a [Token],
) -> Found<'a, Part>
    requires few { spare < 2 ^ 8 }
    requires room { 1 < spare }
    ensures gives { Gives names.new result (form_in spare (spec.interface_part first) names.old ts.now) }
    ensures noted { all_taken_back changes.new.items names.new ≡ all_taken_back changes.old.items names.old }
{
    match first {
        Sort::Interface => interface(alloc, names, changes, spare, ts),
        _ => Err(Stop::Syntax(ts)),
    }
}

fn part_of<'a>(
    alloc: Global,
    names: &mut TypeNames,
    changes: &mut Vec<Change>,
    spare: usize,
    kind: UnitKind,
    first: Sort,
    ts: &'a [Token],
) -> Found<'a, Part>
    requires few { spare < 2 ^ 8 }
    requires room { 1 < spare }
    ensures gives { Gives names.new result (form_in spare (reads.part_of kind first) names.old ts.now) }
    ensures noted { all_taken_back changes.new.items names.new ≡ all_taken_back changes.old.items names.old }
{
    match kind {
        UnitKind::Interface => interface_part(alloc, names, changes, spare, first, ts),
        UnitKind::Component => component(alloc, names, changes, spare, first, ts),
    }
}

fn part<'a>(
    alloc: Global,
    names: &mut TypeNames,
    changes: &mut Vec<Change>,
    spare: usize,
    kind: UnitKind,
    ts: &'a [Token],
) -> Found<'a, Part>
    requires few { spare < 2 ^ 8 }
    requires room { 1 < spare }
    ensures gives { Gives names.new result (form_in spare (Form.by (reads.part_of kind)) names.old ts.now) }
    ensures noted { all_taken_back changes.new.items names.new ≡ all_taken_back changes.old.items names.old }
{
    let first = ahead(names, ts);
    part_of(alloc, names, changes, spare, kind, first, ts)
}

// An interface or a component, whose own names end with it.
fn scoped_part<'a>(
    alloc: Global,
    names: &mut TypeNames,
    spare: usize,
    kind: UnitKind,
    ts: &'a [Token],
) -> Found<'a, Part>
    requires few { spare < 2 ^ 8 }
    requires room { 1 < spare }
    ensures gives { Gives names.old result (form_in spare (Form.scope (Form.by (reads.part_of kind))) names.old ts.now) }
    ensures back { names.new ≡ names.old }
{
    let mut changes = Vec::new(alloc);
    let found = part(alloc, names, &mut changes, spare, kind, ts);
    give_back(names, changes);
    found
}

/// What a file holds; the names that the headers' declarations make are in force behind it.
#[tactic(auto, unfolding(nesc_tree::specs::Reading::read))]
pub fn unit<'a>(
    alloc: Global,
    names: &mut TypeNames,
    changes: &mut Vec<Change>,
    kind: UnitKind,
    ts: &'a [Token],
) -> Found<'a, Unit>
    ensures gives { Gives names.new result (form_in spare (reads.unit_form kind) names.old ts.now) }
    ensures noted { all_taken_back changes.new.items names.new ≡ all_taken_back changes.old.items names.old }
{
    let (list, rest) = decls(alloc, names, changes, SPARE, Site::Header, ts)?;
    let (part, rest) = scoped_part(alloc, names, SPARE, kind, rest)?;
    Ok((unit_of(list, part), rest))
}

// Whether reading a unit comes to the last of these tokens.
fn reads_unit(
    alloc: Global,
    names: &mut TypeNames,
    kind: UnitKind,
    ts: &[Token],
) -> Result<bool, NoMemory>
    ensures told { IfOk result (λ b. b ≡ is_ended (answer most (phrase_of kind) names.old ts.now)) }
    ensures back { names.new ≡ names.old }
{
    let mut changes = Vec::new(alloc);
    let found = unit(alloc, names, &mut changes, kind, ts);
    let ended = is_ended(found);
    give_back(names, changes);
    ended
}

impl Reader for UnitKind {
    ghost use Rattle.nesc_parse_comp.specs.Units.{phrase_of, spare};

    ghost phrase = { λ r. phrase_of r };

    ghost spare = { λ r. spare };

    fn reads_all(
        &self,
        alloc: Global,
        names: &mut TypeNames,
        ts: &[Token],
    ) -> Result<bool, NoMemory> {
        reads_unit(alloc, names, *self, ts)
    }
}
