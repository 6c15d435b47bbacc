//! What heads and groups of variables name.

ghost use Rattle.std.specs.Prelude.{◌≡◌, map};
ghost use Rattle.std.specs.Option.{option_map};
ghost use Rattle.body_meaning.specs.View.{head_of, param_of, variable_of};
ghost use Rattle.elab_meaning.specs.Answers.{Follows};
ghost use Rattle.program_meaning.specs.Walk as spec;

use elab_values::{bad_type, unknown_name};
use nesc_tree::{FuncHead, FuncKind, Param, Variable};
use nm_base::{Fault, Name, Pos};

fn plain_name(at: Pos, item: &Option<Name>, bracket: &Option<Param>) -> Result<(), Fault>
    ensures { Follows (λ _. tt) result (spec.plain_name at item.now (option_map param_of bracket.now)) }
{
    match item {
        Some(_) => bad_type(at),
        None => match bracket {
            Some(_) => bad_type(at),
            None => Ok(()),
        },
    }
}

fn item_name(at: Pos, item: &Option<Name>) -> Result<(), Fault>
    ensures { Follows (λ _. tt) result (spec.item_name at item.now) }
{
    match item {
        None => unknown_name(at),
        Some(_) => Ok(()),
    }
}

/// A function and a task have a name alone (else BadType), and a command and an event that of an item (else UnknownName).
pub fn well_named(h: &FuncHead) -> Result<(), Fault>
    ensures { Follows (λ _. tt) result (spec.well_named (head_of h.now) h.now.kind) }
{
    match h.kind {
        FuncKind::Plain => plain_name(h.pos, &h.item, &h.bracket),
        FuncKind::Task => plain_name(h.pos, &h.item, &h.bracket),
        FuncKind::Command => item_name(h.pos, &h.item),
        FuncKind::Event => item_name(h.pos, &h.item),
    }
}

/// Whether declarations stand in a module, which has a name in print.
pub fn in_module(instance: &Option<Name>) -> bool
    ensures { result ≡ spec.in_module instance.now }
{
    match instance {
        None => false,
        Some(_) => true,
    }
}

/// The bytes of a name, or none.
pub(crate) fn or_nothing(name: &Option<Name>) -> &[u8]
    ensures { result.now ≡ spec.or_nothing name.now }
{
    match name {
        None => &[],
        Some(name) => name.as_bytes(),
    }
}

/// The place of the first name of a group of variables, or the start of a text.
pub fn first_at(variables: &[Variable]) -> Pos
    ensures { result ≡ spec.first_at (map variable_of variables.now) }
{
    match variables.first() {
        None => Pos {
            file: 0,
            line: 1,
            col: 1,
        },
        Some(first) => first.pos,
    }
}
