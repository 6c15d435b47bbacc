//! The numbers of functions and tasks among the definitions of headers or of a module.

ghost use Rattle.std.specs.Prelude.{◌≡◌, ◌&&◌, bytes_eq, is_some};
ghost use Rattle.std.specs.Option.{option_map};
ghost use Rattle.body_meaning.specs.View.{decl_of, head_of};
ghost use Rattle.elab_uses.specs.Lists.{decls_of};
ghost use Rattle.program_meaning.specs.Numbers as spec;

use nesc_tree::{Decl, FuncHead, FuncKind};
use nm_base::Name;

/// Whether it is a command or an event.
pub fn is_item_kind(kind: FuncKind) -> bool
    ensures { result ≡ spec.is_item_kind kind }
{
    match kind {
        FuncKind::Command => true,
        FuncKind::Event => true,
        FuncKind::Plain => false,
        FuncKind::Task => false,
    }
}

/// Whether it is a task.
pub fn is_task_kind(kind: FuncKind) -> bool
    ensures { result ≡ spec.is_task_kind kind }
{
    match kind {
        FuncKind::Task => true,
        FuncKind::Plain => false,
        FuncKind::Command => false,
        FuncKind::Event => false,
    }
}

fn is_function(name: &Name, head: &FuncHead) -> bool
    ensures { result ≡ spec.is_function name.now (head_of head.now) }
{
    !is_item_kind(head.kind) && head.name == *name
}

fn is_text(name: &Name, item: &Option<Name>) -> bool
    ensures { result ≡ spec.is_text name.now item.now }
{
    match item {
        Some(item) => *item == *name,
        None => false,
    }
}

fn is_item_of(head: &FuncHead, element: &Name, item: &Name) -> bool
    ensures { result ≡ (bytes_eq (head_of head.now).name element.now && spec.is_text item.now (head_of head.now).item) }
{
    head.name == *element && is_text(item, &head.item)
}

fn implements(element: &Name, item: &Name, is_default: bool, head: &FuncHead) -> bool
    ensures { result ≡ spec.implements element.now item.now is_default (head_of head.now) }
{
    if is_default {
        is_item_kind(head.kind) && head.is_default && is_item_of(head, element, item)
    } else {
        is_item_kind(head.kind) && !head.is_default && is_item_of(head, element, item)
    }
}

// Whether a function with a body has the name; None of what has no body.
fn names(decl: &Decl, name: &Name) -> Option<bool>
    ensures { result ≡ option_map (spec.is_function name.now) (spec.definition_in (decl_of decl.now)) }
{
    match decl {
        Decl::Typedef { .. } => None,
        Decl::TypeOnly(_, _) => None,
        Decl::Vars(_) => None,
        Decl::Func { head, body } => match body {
            None => None,
            Some(_) => Some(is_function(name, head)),
        },
    }
}

// Whether a function with a body implements the item, or its default; None of what has no body.
fn provides(decl: &Decl, element: &Name, item: &Name, is_default: bool) -> Option<bool>
    ensures { result ≡ option_map (spec.implements element.now item.now is_default) (spec.definition_in (decl_of decl.now)) }
{
    match decl {
        Decl::Typedef { .. } => None,
        Decl::TypeOnly(_, _) => None,
        Decl::Vars(_) => None,
        Decl::Func { head, body } => match body {
            None => None,
            Some(_) => Some(implements(element, item, is_default, head)),
        },
    }
}

/// The place of a function or a task among the functions that have bodies.
#[tactic(auto, using(crate::proofs::Places::places))]
pub fn function_place(decls: &[Decl], name: &Name) -> Option<usize>
    ensures { result ≡ spec.place_of (spec.is_function name.now) (decls_of decls.now) }
{
    let mut place = 0;
    for decl in decls {
        match names(decl, name) {
            None => {}
            Some(true) => return Some(place),
            Some(false) => place += 1,
        }
    }
    None
}

/// The place of the implementation of an item, or of its default, among the functions that have bodies.
#[tactic(auto, using(crate::proofs::Places::places))]
pub fn implementation_place(
    decls: &[Decl],
    element: &Name,
    item: &Name,
    is_default: bool,
) -> Option<usize>
    ensures { result ≡ spec.place_of (spec.implements element.now item.now is_default) (decls_of decls.now) }
{
    let mut place = 0;
    for decl in decls {
        match provides(decl, element, item, is_default) {
            None => {}
            Some(true) => return Some(place),
            Some(false) => place += 1,
        }
    }
    None
}

fn has_body(decl: &Decl) -> bool
    ensures { result ≡ is_some (spec.definition_in (decl_of decl.now)) }
{
    match decl {
        Decl::Typedef { .. } => false,
        Decl::TypeOnly(_, _) => false,
        Decl::Vars(_) => false,
        Decl::Func { body, .. } => body.is_some(),
    }
}

/// How many functions have bodies.
#[tactic(auto, using(crate::proofs::Places::counts))]
pub fn bodies_in(decls: &[Decl]) -> usize
    ensures { result ≡ spec.bodies_in (decls_of decls.now) }
{
    let mut count = 0;
    for decl in decls {
        if has_body(decl) {
            count += 1;
        }
    }
    count
}
