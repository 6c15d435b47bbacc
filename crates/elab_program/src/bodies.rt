//! The bodies of the whole program: the boot function with initial values and its locals, and dispatch functions behind all others.

ghost use Rattle.std.specs.Prelude.{◌≡◌, ◌++◌, IfOk, OnOk, map};
ghost use Rattle.std.specs.Option.{option_map};
ghost use Rattle.elab_making.specs.View.{whole_of};
ghost use Rattle.elab_objects.specs.View.{boot_of};
ghost use Rattle.elab_program.specs.Parts as parts;
ghost use Rattle.nesc_core.specs.View.{body_of, stmt_of, type_of};
ghost use Rattle.program_meaning.specs.Program as spec;

use crate::initial::with_initial;
use elab_making::Whole;
use elab_objects::Boot;
use nesc_core::{Body, CoreStmt, CoreType};
use nm_base::{List, NoMemory};
use std::alloc::Global;
use std::mem::replace;

// The boot function with these locals, and with the initial values first.
fn boot_body(
    alloc: Global,
    locals: &mut Vec<CoreType>,
    initial: &mut Vec<CoreStmt>,
    body: &mut Body,
) -> Result<(), NoMemory>
    ensures { IfOk result (λ _. body_of body.new ≡ parts.booting (map type_of locals.old.items) (map stmt_of initial.old.items) (body_of body.old)) }
{
    with_initial(alloc, initial, &mut body.code)?;
    body.locals = List::new(replace(locals, Vec::new(alloc)));
    Ok(())
}

fn boot_among(
    alloc: Global,
    locals: &mut Vec<CoreType>,
    initial: &mut Vec<CoreStmt>,
    number: usize,
    bodies: &mut Vec<Body>,
) -> Result<(), NoMemory>
    ensures { IfOk result (λ _. map body_of bodies.new.items ≡ parts.with_boot (map type_of locals.old.items) (map stmt_of initial.old.items) number (map body_of bodies.old.items)) }
{
    match bodies.get_mut(number) {
        None => Ok(()),
        Some(body) => boot_body(alloc, locals, initial, body),
    }
}

/// The number of the boot function's body.
pub(crate) fn boot_number(boot: Option<Boot>) -> u32
    ensures { result ≡ spec.boot_number (option_map boot_of boot) }
{
    match boot {
        None => 0,
        Some(boot) => boot.body,
    }
}

fn booted(alloc: Global, whole: &mut Whole) -> Result<(), NoMemory>
    ensures { IfOk result (λ _. whole_of whole.new ≡ parts.booted (whole_of whole.old)) }
{
    let number = boot_number(whole.boot) as usize;
    let mut locals = replace(&mut whole.boot_locals, Vec::new(alloc));
    let mut initial = replace(&mut whole.initial, Vec::new(alloc));
    boot_among(alloc, &mut locals, &mut initial, number, &mut whole.bodies)
}

fn with_dispatch(whole: &mut Whole) -> Result<(), NoMemory>
    ensures { OnOk result (whole_of whole.new ≡ parts.with_dispatch (whole_of whole.old)) }
{
    whole.bodies.append(&mut whole.dispatch)?;
    Ok(())
}

/// All bodies in the order of their numbers; no statement is copied.
pub(crate) fn all_bodies(alloc: Global, whole: &mut Whole) -> Result<(), NoMemory>
    ensures { IfOk result (λ _. whole_of whole.new ≡ parts.finished (whole_of whole.old)) }
{
    booted(alloc, whole)?;
    with_dispatch(whole)
}
