//! The targets of a wiring, as a line.

use crate::line::{Wiring, wiring_of};
use nm_base::{List, NoMemory};
use std::alloc::Global;
use wire_targets::{End, Stop, Table, Wire, targets};

/// How many instances there are.
const INSTANCES: u32 = 20;

fn found(alloc: Global, l: &Wiring) -> Result<Vec<End>, Stop> {
    let mut sinks = Vec::new(alloc);
    for instance in 0..INSTANCES {
        sinks.push(List::new(vec![in alloc; instance >= l.module; 1]?))?;
    }
    let wires = l.wires.as_slice();
    let table = Table::new(alloc, wires)?;
    let start = End {
        instance: 0,
        element: 0,
        param: l.param,
    };
    targets(alloc, wires, &table, sinks.as_slice(), start)
}

// A wire from instance 0 to another one.
fn spoke(place: u32) -> Wire {
    let end = |instance| End {
        instance,
        element: 0,
        param: None,
    };
    Wire {
        from: end(0),
        to: end(place % (INSTANCES - 1) + 1),
    }
}

fn fan(alloc: Global, count: u32) -> Result<Wiring, NoMemory> {
    let mut wires = Vec::new(alloc);
    for place in 0..count {
        wires.push(spoke(place))?;
    }
    Ok(Wiring {
        module: 1,
        param: None,
        wires,
    })
}

fn push_end(alloc: Global, text: &mut Vec<u8>, end: &End) -> Result<(), NoMemory> {
    let instance = end.instance;
    let shown = match end.param {
        None => format!(in alloc; "{instance} ")?,
        Some(param) => format!(in alloc; "{instance}:{param} ")?,
    };
    text.extend_from_slice(shown.as_bytes())?;
    Ok(())
}

fn push_stop(alloc: Global, text: &mut Vec<u8>, stop: &Stop) -> Result<(), NoMemory> {
    match stop {
        Stop::Loop(k) => {
            let shown = format!(in alloc; "loop at wire {k}\n")?;
            text.extend_from_slice(shown.as_bytes())?;
            Ok(())
        }
        Stop::Wires => Ok(text.extend_from_slice(b"too many ends\n")?),
        Stop::NoMemory => Err(NoMemory),
    }
}

fn push_targets(alloc: Global, text: &mut Vec<u8>, l: &Wiring) -> Result<(), NoMemory> {
    match found(alloc, l) {
        Ok(ends) => {
            for end in ends.iter() {
                push_end(alloc, text, end)?;
            }
            Ok(text.extend_from_slice(b"end\n")?)
        }
        Err(stop) => push_stop(alloc, text, &stop),
    }
}

fn push_count(alloc: Global, text: &mut Vec<u8>, l: &Wiring) -> Result<(), NoMemory> {
    match found(alloc, l) {
        Ok(ends) => {
            let count = ends.len();
            let shown = format!(in alloc; "{count} targets\n")?;
            text.extend_from_slice(shown.as_bytes())?;
            Ok(())
        }
        Err(stop) => push_stop(alloc, text, &stop),
    }
}

/// The answer to a line, with its end.
pub fn answer(alloc: Global, text: &str) -> Result<Vec<u8>, NoMemory> {
    let mut shown = Vec::new(alloc);
    let count = text.strip_prefix("fan ").and_then(|word| word.parse().ok());
    if let Some(count) = count {
        push_count(alloc, &mut shown, &fan(alloc, count)?)?;
        return Ok(shown);
    }
    match wiring_of(alloc, text)? {
        Some(l) => push_targets(alloc, &mut shown, &l)?,
        None => shown.extend_from_slice(b"no wiring\n")?,
    }
    Ok(shown)
}
