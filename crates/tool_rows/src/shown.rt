//! What of a call's text hangs on the source alone: not the bytes of stack, those of the image, and slots.

use nm_base::NoMemory;
use std::alloc::Global;

// The parts of a text: what stands before the image, the image with the bytes of its stack and a line of totals behind it, and the trace.
#[derive(Clone, Copy)]
enum Part {
    Source,
    Image,
    Trace,
}

fn part_of(before: Part, line: &str) -> Part {
    match before {
        Part::Source if line.starts_with("stack ") => Part::Image,
        _ => before,
    }
}

fn part_behind(part: Part, line: &str) -> Part {
    match part {
        Part::Image if line == "trace" => Part::Trace,
        _ => part,
    }
}

// Without the bytes that are needed.
fn source_line(line: &str) -> &str {
    if line.starts_with("too large code ") {
        return "too large code";
    }
    if line.starts_with("too large ram ") {
        return "too large ram";
    }
    line
}

// An event without its slot; of the last line whether the processor is off.
fn trace_line(line: &str) -> &str {
    match line.split_once(' ') {
        Some(("end", counts)) if counts.ends_with("off 1") => "off 1",
        Some(("end", _)) => "off 0",
        Some((_, event)) => event,
        None => line,
    }
}

fn put_line(out: &mut String, line: &str) -> Result<(), NoMemory> {
    out.push_str(line)?;
    out.push('\n')?;
    Ok(())
}

fn put_shown(out: &mut String, part: Part, line: &str) -> Result<(), NoMemory> {
    match part {
        Part::Source => put_line(out, source_line(line)),
        Part::Image if line.starts_with("gen ") => put_line(out, line),
        Part::Image => Ok(()),
        Part::Trace => put_line(out, trace_line(line)),
    }
}

fn shown_from(alloc: Global, part: Part, text: &str) -> Result<String, NoMemory> {
    let mut out = String::new(alloc);
    let mut part = part;
    for line in text.lines() {
        part = part_of(part, line);
        put_shown(&mut out, part, line)?;
        part = part_behind(part, line);
    }
    Ok(out)
}

/// What of a text hangs on the source alone.
pub fn shown(alloc: Global, text: &str) -> Result<String, NoMemory> {
    shown_from(alloc, Part::Source, text)
}

/// The same of a trace, without its arrivals.
pub fn shown_trace(alloc: Global, text: &str) -> Result<String, NoMemory> {
    let mut out = String::new(alloc);
    for line in shown_from(alloc, Part::Trace, text)?.as_str().lines() {
        if !line.starts_with("arrive ") {
            put_line(&mut out, line)?;
        }
    }
    Ok(out)
}

/// The lines of the image in the text of a build.
pub fn image_lines(alloc: Global, text: &str) -> Result<String, NoMemory> {
    let mut out = String::new(alloc);
    let mut is_image = false;
    for line in text.lines() {
        is_image = is_image || line.starts_with("@");
        if is_image {
            put_line(&mut out, line)?;
        }
    }
    Ok(out)
}

/// The first line of a text, and the number of its lines.
pub fn shortened(alloc: Global, text: &str) -> Result<String, NoMemory> {
    let first = text.lines().next().unwrap_or("");
    let count = text.lines().count();
    Ok(format!(in alloc; "{first}\n{count} lines\n")?)
}
