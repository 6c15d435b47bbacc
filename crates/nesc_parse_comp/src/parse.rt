//! Parsing the file of a component or an interface.

ghost use Rattle.std.specs.Prelude.{◌≡◌, ◌≤◌, ◌-◌, ℕ, OnErr, Err, length, take};
ghost use Rattle.nesc_tree.specs.Reading.{Deep, Syntax};
ghost use Rattle.nesc_grammar.specs.Laws.{answer};
ghost use Rattle.nesc_grammar.specs.Reach.{BeginsIn};
ghost use Rattle.nesc_parse_types.specs.Gives.{Fails};
ghost use Rattle.nesc_parse_comp.specs.Units as spec;
ghost use Rattle.nesc_parse_comp.specs.Units.{most, phrase_of};
ghost use Rattle.nesc_parse_comp.specs.Behind.{IsBehind};
ghost use Rattle.nesc_parse_comp.specs.declared.kinds.UnitKind.TheVariants as kind;

use crate::kinds::UnitKind;
use crate::named::other_name;
use crate::units::unit;
use nesc_left_out::{left_out, refused};
use nesc_parse_types::Stop;
use nesc_scopes::give_back;
use nesc_tree::{TypeNames, Unit};
use nm_base::{Fault, Limit, MAX_DEPTH, Name, Refusal, Token, Which};
use std::alloc::Global;

// The tokens up to those that are left.
fn before_rest<'a>(ts: &'a [Token], rest: &[Token]) -> &'a [Token]
    requires { length rest.now ≤ length ts.now }
    ensures { result.now ≡ take (length ts.now - length rest.now) ts.now }
{
    &ts[..ts.len() - rest.len()]
}

// The refusal of the first token behind a whole unit.
fn refused_behind(
    alloc: Global,
    kind: UnitKind,
    names: &mut TypeNames,
    before: &[Token],
    token: &Token,
) -> Fault
    requires { BeginsIn most (phrase_of kind) names.old before.now }
    ensures told { IsBehind kind names.old before.now token.now result }
    ensures back { names.new ≡ names.old }
{
    match left_out(&kind, alloc, names, before, token) {
        Err(_) => Fault::NoMemory,
        Ok(None) => Fault::Refused(Refusal::Syntax(token.pos)),
        Ok(Some(word)) => Fault::Refused(Refusal::LeftOut(token.pos, word)),
    }
}

// Why no unit goes on with the first token that is left.
fn syntax_fault(
    alloc: Global,
    kind: UnitKind,
    ts: &[Token],
    name: &Name,
    names: &mut TypeNames,
    file: u32,
    rest: &[Token],
) -> Fault
    requires { answer most (phrase_of kind) names.old ts.now ≡ Err (Syntax rest.now) }
    ensures told { spec.Fails kind file ts.now name.now names.old result }
    ensures back { names.new ≡ names.old }
{
    let before = before_rest(ts, rest);
    match other_name(names, before, name) {
        Some(pos) => Fault::Refused(Refusal::WrongName(pos)),
        None => refused(&kind, alloc, ts, 0, names, file, rest),
    }
}

// Why the first token that is left is too deep, or not reached.
fn depth_fault(
    kind: UnitKind,
    ts: &[Token],
    name: &Name,
    names: &TypeNames,
    rest: &[Token],
) -> Fault
    requires { answer most (phrase_of kind) names.now ts.now ≡ Err (Deep rest.now) }
    ensures { (file : ℕ) → spec.Fails kind file ts.now name.now names.now result }
{
    let before = before_rest(ts, rest);
    match other_name(names, before, name) {
        Some(pos) => Fault::Refused(Refusal::WrongName(pos)),
        None => Fault::Limit(Limit {
            which: Which::Depth,
            have: MAX_DEPTH + 1,
        }),
    }
}

// Why reading a unit stops.
fn stopped(
    alloc: Global,
    kind: UnitKind,
    ts: &[Token],
    name: &Name,
    names: &mut TypeNames,
    file: u32,
    stop: Stop<'_>,
) -> Fault
    requires { Fails stop (answer most (phrase_of kind) names.old ts.now) }
    ensures told { spec.Fails kind file ts.now name.now names.old result }
    ensures back { names.new ≡ names.old }
{
    match stop {
        Stop::Memory => Fault::NoMemory,
        Stop::Syntax(rest) => syntax_fault(alloc, kind, ts, name, names, file, rest),
        Stop::Deep(rest) => depth_fault(kind, ts, name, names, rest),
    }
}

fn parse_unit(
    alloc: Global,
    kind: UnitKind,
    ts: &[Token],
    name: &Name,
    names: &mut TypeNames,
    file: u32,
) -> Result<Unit, Fault>
    ensures parsed { spec.Parses kind file ts.now name.now names.old names.new result }
    ensures kept { OnErr result (names.new ≡ names.old) }
{
    let mut changes = Vec::new(alloc);
    match unit(alloc, names, &mut changes, kind, ts) {
        Ok((unit, rest)) => {
            let before = before_rest(ts, rest);
            match other_name(names, before, name) {
                Some(pos) => {
                    give_back(names, changes);
                    Err(Fault::Refused(Refusal::WrongName(pos)))
                }
                None => match rest {
                    [] => Ok(unit),
                    [token, ..] => {
                        give_back(names, changes);
                        Err(refused_behind(alloc, kind, names, before, token))
                    }
                },
            }
        }
        Err(stop) => {
            give_back(names, changes);
            Err(stopped(alloc, kind, ts, name, names, file, stop))
        }
    }
}

/// Reads a whole file: declarations of headers, and a module or configuration of this name. Afterwards the names are what the headers'
/// declarations make of them, since the component's own end with it; after a refusal they are what they were. E09 comes at the name where it
/// is another one; E07 or E08 at the first token that no text goes on with, also behind a whole component; Limit(Depth) where a tree has more
/// than 200 levels: whichever token comes first.
pub fn parse_component(
    alloc: Global,
    ts: &[Token],
    name: &Name,
    names: &mut TypeNames,
    file: u32,
) -> Result<Unit, Fault>
    ensures parsed { spec.Parses kind.Component file ts.now name.now names.old names.new result }
    ensures kept { OnErr result (names.new ≡ names.old) }
{
    parse_unit(alloc, UnitKind::Component, ts, name, names, file)
}

/// Reads a whole file that declares an interface of this name, in the same way.
pub fn parse_interface(
    alloc: Global,
    ts: &[Token],
    name: &Name,
    names: &mut TypeNames,
    file: u32,
) -> Result<Unit, Fault>
    ensures parsed { spec.Parses kind.Interface file ts.now name.now names.old names.new result }
    ensures kept { OnErr result (names.new ≡ names.old) }
{
    parse_unit(alloc, UnitKind::Interface, ts, name, names, file)
}
