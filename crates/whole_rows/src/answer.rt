//! What is said of an application.

ghost use Rattle.std.specs.Prelude.{◌≡◌};
ghost use Rattle.wire_paths.specs.declared.wires.Way.TheVariants as way;
ghost use Rattle.wire_paths.specs.Wires.{wires_of};

use crate::program::{put_numbers, put_program};
use application_texts::{Application, put_fault};
use core_text::{Places, Text};
use elab_application::application;
use nesc_core::Program;
use nesc_elab::wired;
use nesc_preproc::Reading;
use nesc_wiring::{Wiring, load};
use nm_base::{Fault, NoMemory};
use std::alloc::Global;
use unit_parsing::Grammar;

fn put_refused(out: &mut Text, reading: &Reading, fault: &Fault) -> Result<(), NoMemory> {
    out.put(b": ")?;
    put_fault(out.alloc, &mut out.bytes, reading, fault)
}

fn put_whole(
    out: &mut Text,
    reading: &Reading,
    program: &Program,
    numbers: bool,
) -> Result<(), NoMemory> {
    if numbers {
        put_numbers(out, program)
    } else {
        put_program(out, reading, program)
    }
}

// The program that an application is wired to, or where its bodies are refused.
fn put_wired(out: &mut Text, wiring: &Wiring, numbers: bool) -> Result<(), NoMemory>
    requires calls { wiring.now.nets.calls.wires.items ≡ wires_of way.Calls wiring.now.links.pairs.items }
    requires signals { wiring.now.nets.signals.wires.items ≡ wires_of way.Signals wiring.now.links.pairs.items }
{
    let units = wiring.units.as_slice();
    let app = application(out.alloc, units, &wiring.links, &wiring.nets)?;
    match wired(out.alloc, &app) {
        Ok(program) => put_whole(out, &wiring.reading, &program, numbers),
        Err(fault) => put_refused(out, &wiring.reading, &fault),
    }
}

fn put_answer(out: &mut Text, application: Application) -> Result<(), NoMemory> {
    out.put(application.name.as_bytes())?;
    let name = application.name.clone()?;
    let numbers = application.numbers;
    let mut files = application.into_files(out.alloc)?;
    match load(out.alloc, &mut files, Grammar, &name) {
        Ok(wiring) => put_wired(out, &wiring, numbers),
        Err(stopped) => put_refused(out, &stopped.reading, &stopped.fault),
    }
}

/// The lines of an application: its wired program, or its first refusal.
pub fn answer(alloc: Global, application: Application) -> Result<Vec<u8>, NoMemory> {
    let mut out = Text::new(alloc, Places::Whole);
    put_answer(&mut out, application)?;
    out.put(b"\n")?;
    Ok(out.bytes)
}
