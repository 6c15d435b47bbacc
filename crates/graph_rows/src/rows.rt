//! Worked programs, and what their graphs or refusals are.

use crate::programs::{Shape, atomic_call, call, program};
use call_graph::{Call, CallGraph, graph};
use nm_base::{Fault, NoMemory, Path, Pos, Refusal};
use std::alloc::Global;

const NO_COMMANDS: Shape = Shape {
    items: 1000,
    handler: None,
};

fn graph_of(alloc: Global, calls: &[Call], count: u32, shape: Shape) -> Result<CallGraph, Fault> {
    let p = program(alloc, calls, count, shape)?;
    graph(alloc, &p)
}

fn shortest_of_several_cycles(alloc: Global) -> Result<CallGraph, Fault> {
    let calls = [
        call(0, 1, 1),
        call(1, 2, 2),
        call(2, 3, 3),
        call(2, 1, 4),
        call(3, 0, 5),
        call(3, 2, 6),
    ];
    graph_of(alloc, &calls, 4, NO_COMMANDS)
}

fn call_of_itself(alloc: Global) -> Result<CallGraph, Fault> {
    let calls = [call(0, 1, 1), atomic_call(1, 1, 2)];
    graph_of(alloc, &calls, 2, NO_COMMANDS)
}

fn cycle_of_forty(alloc: Global) -> Result<CallGraph, Fault> {
    let mut calls = Vec::new(alloc);
    for f in 0..39_u32 {
        calls.push(call(f, f + 1, f + 1))?;
    }
    calls.push(call(39, 0, 40))?;
    graph_of(alloc, &calls, 40, NO_COMMANDS)
}

fn calls_and_paths(alloc: Global) -> Result<CallGraph, Fault> {
    let calls = [
        atomic_call(0, 1, 1),
        call(0, 2, 2),
        call(1, 4, 3),
        call(2, 3, 4),
        call(3, 1, 5),
        atomic_call(3, 5, 6),
        call(5, 6, 7),
    ];
    let shape = Shape {
        items: 7,
        handler: Some(1),
    };
    graph_of(alloc, &calls, 7, shape)
}

fn least_chain_to_a_synchronous_command(alloc: Global) -> Result<CallGraph, Fault> {
    let calls = [
        call(0, 1, 1),
        call(0, 2, 2),
        call(1, 4, 3),
        call(2, 3, 4),
        call(4, 5, 5),
    ];
    let shape = Shape {
        items: 3,
        handler: Some(0),
    };
    graph_of(alloc, &calls, 6, shape)
}

fn cycle_before_a_synchronous_command(alloc: Global) -> Result<CallGraph, Fault> {
    let calls = [call(0, 3, 1), call(1, 2, 2), call(2, 1, 3)];
    let shape = Shape {
        items: 3,
        handler: Some(0),
    };
    graph_of(alloc, &calls, 4, shape)
}

// ` name`, and the marked bodies.
fn push_marks(
    alloc: Global,
    text: &mut Vec<u8>,
    name: &str,
    marks: &[bool],
) -> Result<(), NoMemory> {
    text.extend_from_slice(name.as_bytes())?;
    for (f, marked) in marks.iter().enumerate() {
        if *marked {
            let number = format!(in alloc; " {f}")?;
            text.extend_from_slice(number.as_bytes())?;
        }
    }
    Ok(())
}

// `calls` and each call, with `!` where it lies in an atomic statement; the bodies that bare paths reach, and those that handlers reach.
fn push_graph(alloc: Global, text: &mut Vec<u8>, g: &CallGraph) -> Result<(), NoMemory> {
    text.extend_from_slice(b"calls")?;
    for made in g.calls.as_slice() {
        let mark = if made.atomic { "!" } else { "" };
        let (from, to) = (made.from, made.to);
        let shown = format!(in alloc; " {from}>{to}{mark}")?;
        text.extend_from_slice(shown.as_bytes())?;
    }
    push_marks(alloc, text, ", bare", g.bare.as_slice())?;
    push_marks(alloc, text, ", async", g.is_async.as_slice())
}

fn push_chain(
    alloc: Global,
    text: &mut Vec<u8>,
    number: u8,
    pos: Pos,
    path: &Path,
) -> Result<(), NoMemory> {
    let line = pos.line;
    let shown = format!(in alloc; "E{number} at line {line}:")?;
    text.extend_from_slice(shown.as_bytes())?;
    for f in path.as_slice() {
        let shown = format!(in alloc; " {f}")?;
        text.extend_from_slice(shown.as_bytes())?;
    }
    Ok(())
}

/// The line of row `place`, or of none behind the last.
pub fn row(alloc: Global, place: usize) -> Result<Option<Vec<u8>>, NoMemory> {
    let (name, found) = match place {
        0 => (
            "shortest of several cycles",
            shortest_of_several_cycles(alloc),
        ),
        1 => ("call of itself", call_of_itself(alloc)),
        2 => ("cycle of forty", cycle_of_forty(alloc)),
        3 => ("calls and paths", calls_and_paths(alloc)),
        4 => (
            "least chain to a synchronous command",
            least_chain_to_a_synchronous_command(alloc),
        ),
        5 => (
            "cycle before a synchronous command",
            cycle_before_a_synchronous_command(alloc),
        ),
        _ => return Ok(None),
    };
    let mut text = Vec::new(alloc);
    text.extend_from_slice(name.as_bytes())?;
    text.extend_from_slice(b": ")?;
    match &found {
        Ok(g) => push_graph(alloc, &mut text, g)?,
        Err(Fault::Refused(Refusal::Recursion(pos, path))) => push_chain(
            alloc, &mut text, 21, *pos, path,
        )?,
        Err(Fault::Refused(Refusal::NotAsync(pos, path))) => push_chain(
            alloc, &mut text, 22, *pos, path,
        )?,
        Err(_) => text.extend_from_slice(b"another fault")?,
    }
    text.push(b'\n')?;
    Ok(Some(text))
}
