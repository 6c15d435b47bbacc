//! One call of the top call over files and a sink in memory, on a board of five devices.

use mote_devices::{Device, Leds, Radio, Sensor, Serial, Timer};
use nm_base::{List, MemFiles, MemSink, Name, NoMemory};
use nm_driver::tool;
use std::alloc::Global;
use std::str::from_utf8;

/// More bytes than a call writes.
const ROOM: usize = 2_000_000;

/// A file in memory.
pub fn file(alloc: Global, name: &str, text: &str) -> Result<(Name, List<u8>), NoMemory> {
    Ok((
        Name::new(alloc, name.as_bytes())?,
        List::new(text.as_bytes().to_vec(alloc)?),
    ))
}

// The words between blanks.
fn words_of(alloc: Global, line: &str) -> Result<Vec<String>, NoMemory> {
    let mut words = Vec::new(alloc);
    for word in line.split_whitespace() {
        words.push(word.to_string(alloc)?)?;
    }
    Ok(words)
}

/// The status of the call with the words of a line.
pub fn status_of(
    alloc: Global,
    line: &str,
    files: &mut MemFiles,
    out: &mut MemSink,
) -> Result<u8, NoMemory> {
    let words = words_of(alloc, line)?;
    let leds: Box<dyn Device> = Box::new(alloc, Leds::new())?;
    let timer: Box<dyn Device> = Box::new(alloc, Timer::new())?;
    let serial: Box<dyn Device> = Box::new(alloc, Serial::new())?;
    let radio: Box<dyn Device> = Box::new(alloc, Radio::new())?;
    let sensor: Box<dyn Device> = Box::new(alloc, Sensor::new())?;
    let board = vec![in alloc; leds, timer, serial, radio, sensor]?;
    Ok(tool(alloc, &words, files, out, board).code())
}

/// The status of the call with these words, and its text.
pub fn called(alloc: Global, line: &str, files: &mut MemFiles) -> Result<(u8, String), NoMemory> {
    let mut out = MemSink::new(alloc, ROOM, Vec::new(alloc))?;
    let status = status_of(alloc, line, files, &mut out)?;
    match from_utf8(out.bytes()) {
        Ok(text) => Ok((status, text.to_string(alloc)?)),
        Err(_) => Err(NoMemory),
    }
}
