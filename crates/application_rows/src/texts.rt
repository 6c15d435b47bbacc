//! Refusals, instances and pairs as texts.

use nesc_preproc::Reading;
use nesc_tree::{Head, Part};
use nesc_wiring::Wiring;
use nm_base::{Fault, NoMemory, Pos, Refusal};
use std::alloc::Global;
use wire_loading::Stopped;
use wire_pairs::{End, Pair};

fn put(out: &mut Vec<u8>, text: &[u8]) -> Result<(), NoMemory> {
    out.extend_from_slice(text)?;
    Ok(())
}

fn put_place(
    alloc: Global,
    out: &mut Vec<u8>,
    reading: &Reading,
    pos: Pos,
) -> Result<(), NoMemory> {
    if let Some(name) = reading.name(pos.file) {
        put(out, name.as_bytes())?;
    }
    let place = format!(in alloc; ":{}:{}", pos.line, pos.col)?;
    put(out, place.as_bytes())
}

fn put_refusal(
    alloc: Global,
    out: &mut Vec<u8>,
    reading: &Reading,
    refusal: &Refusal,
) -> Result<(), NoMemory> {
    let number = refusal.number();
    let text = format!(in alloc; "refused E{}{} ", number / 10, number % 10)?;
    put(out, text.as_bytes())?;
    put_place(alloc, out, reading, refusal.pos())?;
    if let Refusal::LeftOut(_, left) = refusal {
        put(out, b" ")?;
        put(out, left.word().as_bytes())?;
    }
    Ok(())
}

/// Appends a refusal with its place, the file that is missing, or the limit that was passed.
pub fn put_stopped(alloc: Global, out: &mut Vec<u8>, stopped: &Stopped) -> Result<(), NoMemory> {
    match &stopped.fault {
        Fault::Refused(refusal) => put_refusal(alloc, out, &stopped.reading, refusal),
        Fault::Missing(name) => {
            put(out, b"missing ")?;
            put(out, name.as_bytes())
        }
        Fault::Limit(limit) => {
            let text = format!(in alloc; "limit {} {}", limit.which.name(), limit.have)?;
            put(out, text.as_bytes())
        }
        _ => Err(NoMemory),
    }
}

fn head_of(wiring: &Wiring, component: usize) -> Option<&Head> {
    match &wiring.units.get(component)?.unit.part {
        Part::Module(module) => Some(&module.head),
        Part::Config(config) => Some(&config.head),
        Part::Interface(_) | Part::Header => None,
    }
}

// Appends the name of an instance, with its number behind that of a generic component.
fn put_instance(
    alloc: Global,
    out: &mut Vec<u8>,
    wiring: &Wiring,
    number: usize,
) -> Result<(), NoMemory> {
    let Some(made) = wiring.links.made.get(number) else {
        return Ok(());
    };
    let Some(head) = head_of(wiring, made.component) else {
        return Ok(());
    };
    put(out, head.name.as_bytes())?;
    if head.generic.is_some() {
        let copy = format!(in alloc; "#{}", made.copy)?;
        put(out, copy.as_bytes())?;
    }
    Ok(())
}

fn put_element(out: &mut Vec<u8>, wiring: &Wiring, end: End) -> Result<(), NoMemory> {
    let Some(made) = wiring.links.made.get(end.instance) else {
        return Ok(());
    };
    let Some(head) = head_of(wiring, made.component) else {
        return Ok(());
    };
    match head.elems.as_slice().get(end.element) {
        Some(element) => put(out, element.name.as_bytes()),
        None => Ok(()),
    }
}

fn put_end(alloc: Global, out: &mut Vec<u8>, wiring: &Wiring, end: End) -> Result<(), NoMemory> {
    put_instance(alloc, out, wiring, end.instance)?;
    put(out, b".")?;
    put_element(out, wiring, end)?;
    if let Some(param) = end.param {
        let bracket = format!(in alloc; "[{param}]")?;
        put(out, bracket.as_bytes())?;
    }
    Ok(())
}

fn put_pair(
    alloc: Global,
    out: &mut Vec<u8>,
    wiring: &Wiring,
    pair: &Pair,
) -> Result<(), NoMemory> {
    put(out, b"; ")?;
    put_end(alloc, out, wiring, pair.from)?;
    put(out, b" -> ")?;
    put_end(alloc, out, wiring, pair.to)?;
    put(out, b" ")?;
    put_place(alloc, out, &wiring.reading, pair.pos)
}

/// Appends the instances in the order of their creation, and the pairs with the places of their wires.
pub fn put_wiring(alloc: Global, out: &mut Vec<u8>, wiring: &Wiring) -> Result<(), NoMemory> {
    put(out, b"instances")?;
    for number in 0..wiring.links.made.len() {
        put(out, b" ")?;
        put_instance(alloc, out, wiring, number)?;
    }
    for pair in wiring.links.pairs.as_slice() {
        put_pair(alloc, out, wiring, pair)?;
    }
    Ok(())
}

/// Appends how many instances and pairs there are.
pub fn put_numbers(alloc: Global, out: &mut Vec<u8>, wiring: &Wiring) -> Result<(), NoMemory> {
    let made = wiring.links.made.len();
    let pairs = wiring.links.pairs.len();
    let text = format!(in alloc; "{made} instances, {pairs} pairs")?;
    put(out, text.as_bytes())
}
