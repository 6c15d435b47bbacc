//! What is said of an application.

use crate::application::Application;
use crate::sources::Sources;
use crate::texts::{put_numbers, put_stopped, put_wiring};
use nesc_wiring::{Wiring, load};
use nm_base::NoMemory;
use std::alloc::Global;
use unit_parsing::Grammar;

fn put_answer(
    alloc: Global,
    out: &mut Vec<u8>,
    wiring: &Wiring,
    numbers: bool,
    reads: u32,
) -> Result<(), NoMemory> {
    if numbers {
        put_numbers(alloc, out, wiring)?;
    } else {
        put_wiring(alloc, out, wiring)?;
    }
    let text = format!(in alloc; "; reads {reads}")?;
    out.extend_from_slice(text.as_bytes())?;
    Ok(())
}

/// The line of an application: its instances and pairs, or its first refusal.
pub fn answer(alloc: Global, application: Application) -> Result<Vec<u8>, NoMemory> {
    let mut out = application.label.clone()?;
    out.extend_from_slice(b": ")?;
    let name = application.name.clone()?;
    let (numbers, chain) = (application.numbers, application.chain);
    let mut sources = Sources::new(application.into_files(alloc)?, chain);
    match load(alloc, &mut sources, Grammar, &name) {
        Ok(wiring) => put_answer(alloc, &mut out, &wiring, numbers, sources.reads)?,
        Err(stopped) => put_stopped(alloc, &mut out, &stopped)?,
    }
    out.push(b'\n')?;
    Ok(out)
}
