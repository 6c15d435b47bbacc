//! Earlier declarations: a prototype, once, and its definition (C99, 6.2.1).

ghost use Rattle.std.specs.Prelude.{◌≡◌, ◌&&◌, bytes_eq, is_some, map, None, option_copied, Some};
ghost use Rattle.std.specs.Option.{option_map};
ghost use Rattle.body_meaning.specs.View.{head_of, maybe_stmt, stmt_of};
ghost use Rattle.elab_facts.specs.View.{declared_of, form_of};
ghost use Rattle.elab_meaning.specs.Answers.{Follows};
ghost use Rattle.elab_meaning.specs.View.{state_of};
ghost use Rattle.program_meaning.specs.Walk as spec;

use crate::refusals::{argument_mismatch, duplicate_name};
use elab_facts::{Declared, Form};
use elab_heads::same_form;
use elab_meaning::Work;
use elab_types::new_name;
use nesc_tree::{FuncHead, FuncKind, Stmt};
use nm_base::{Fault, Name, Pos};

fn same_item(x: &Option<Name>, y: &Option<Name>) -> bool
    ensures { result ≡ spec.same_item x.now y.now }
{
    match x {
        None => match y {
            None => true,
            Some(_) => false,
        },
        Some(x) => match y {
            None => false,
            Some(y) => *x == *y,
        },
    }
}

fn declares(d: &Declared, h: &FuncHead) -> bool
    ensures { result ≡ (bytes_eq (declared_of d.now).name (head_of h.now).name && spec.same_item (declared_of d.now).item (head_of h.now).item) }
{
    d.name == h.name && same_item(&d.item, &h.item)
}

/// The newest declaration of the name and the item of a head.
#[tactic(auto, using(crate::proofs::Newest::newest_ones))]
pub fn earlier<'a>(ds: &'a [Declared], h: &FuncHead) -> Option<&'a Declared>
    ensures { option_map declared_of (option_copied result) ≡ spec.earlier (map declared_of ds.now) (head_of h.now) }
{
    let mut found = None;
    for d in ds {
        if declares(d, h) {
            found = Some(d);
        }
    }
    found
}

/// Whether there is a declaration.
pub fn is_known(earlier: Option<&Declared>) -> bool
    ensures { result ≡ is_some (option_map declared_of (option_copied earlier.entry)) }
{
    earlier.is_some()
}

/// Whether a declaration has a body.
pub fn is_definition(body: &Option<Stmt>) -> bool
    ensures { result ≡ spec.is_definition (maybe_stmt (option_map stmt_of body.now)) }
{
    match body {
        None => false,
        Some(_) => true,
    }
}

fn agrees_with(at: Pos, defines: bool, f: &Form, d: &Declared) -> Result<(), Fault>
    ensures { Follows (λ _. tt) result (spec.agrees at defines (form_of f.now) (Some (declared_of d.now))) }
{
    if defines {
        if d.is_defined {
            duplicate_name(at)
        } else if same_form(&d.form, f) {
            Ok(())
        } else {
            argument_mismatch(at)
        }
    } else {
        duplicate_name(at)
    }
}

/// A prototype stands once, before its definition (else DuplicateName), and both have the same head (else ArgumentMismatch).
pub fn agrees(at: Pos, defines: bool, f: &Form, earlier: Option<&Declared>) -> Result<(), Fault>
    ensures { Follows (λ _. tt) result (spec.agrees at defines (form_of f.now) (option_map declared_of (option_copied earlier.entry))) }
{
    match earlier {
        None => Ok(()),
        Some(d) => agrees_with(at, defines, f, d),
    }
}

fn is_new_name(h: &FuncHead, work: &Work) -> Result<(), Fault>
    ensures { Follows (λ _. tt) result (spec.is_new (head_of h.now) (state_of work.now) None h.now.kind) }
{
    match h.kind {
        FuncKind::Plain => new_name(h.pos, work.first_name, work.names.as_slice(), &h.name),
        FuncKind::Task => new_name(h.pos, work.first_name, work.names.as_slice(), &h.name),
        FuncKind::Command => Ok(()),
        FuncKind::Event => Ok(()),
    }
}

/// The name of a function or a task that is declared for the first time is new in its scope; else DuplicateName.
pub fn is_new(h: &FuncHead, work: &Work, earlier: Option<&Declared>) -> Result<(), Fault>
    ensures { Follows (λ _. tt) result (spec.is_new (head_of h.now) (state_of work.now) (option_map declared_of (option_copied earlier.entry)) h.now.kind) }
{
    match earlier {
        None => is_new_name(h, work),
        Some(_) => Ok(()),
    }
}
