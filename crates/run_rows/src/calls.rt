//! One call of the top call over files and a sink in memory, on a board of six devices.

use mote_devices::{BoardState, DevState, Device, Leds, Radio, Sensor, Serial, Timer};
use nm_base::{MemFiles, MemSink, NoMemory};
use nm_driver::tool;
use std::alloc::Global;
use std::str::from_utf8;

/// More bytes than a call writes.
const ROOM: usize = 4_000_000;

// The words between blanks.
fn words_of(alloc: Global, line: &str) -> Result<Vec<String>, NoMemory> {
    let mut words = Vec::new(alloc);
    for word in line.split_whitespace() {
        words.push(word.to_string(alloc)?)?;
    }
    Ok(words)
}

// Lamps, a timer, a serial line, a radio and a sensor as the program has them, and a second serial line, to which keys are wired.
fn call_on_board(
    alloc: Global,
    words: &[String],
    files: &mut MemFiles,
    out: &mut MemSink,
) -> Result<(), NoMemory> {
    let leds: Box<dyn Device> = Box::new(alloc, Leds::new())?;
    let timer: Box<dyn Device> = Box::new(alloc, Timer::new())?;
    let serial: Box<dyn Device> = Box::new(alloc, Serial::new())?;
    let radio: Box<dyn Device> = Box::new(alloc, Radio::new())?;
    let sensor: Box<dyn Device> = Box::new(alloc, Sensor::new())?;
    let keys: Box<dyn Device> = Box::new(alloc, Serial::new())?;
    let board = vec![in alloc; leds, timer, serial, radio, sensor, keys]?;
    tool(alloc, words, files, out, board);
    Ok(())
}

/// What the call with these words writes.
pub fn called(alloc: Global, line: &str, files: &mut MemFiles) -> Result<String, NoMemory> {
    let mut out = MemSink::new(alloc, ROOM, Vec::new(alloc))?;
    let words = words_of(alloc, line)?;
    call_on_board(alloc, &words, files, &mut out)?;
    match from_utf8(out.bytes()) {
        Ok(text) => Ok(text.to_string(alloc)?),
        Err(_) => Err(NoMemory),
    }
}

const NEW_SERIAL: DevState = DevState::Serial {
    rx: 0,
    full: false,
    over: false,
    flag: false,
};

/// The board of a call, as the definition of a run sees it.
pub const BOARD: BoardState = BoardState {
    mask: 0,
    slots: [
        Some(DevState::Leds { value: 0 }),
        Some(DevState::Timer {
            on: false,
            period: 0,
            left: 0,
            flag: false,
        }),
        Some(NEW_SERIAL),
        Some(DevState::Radio {
            on: false,
            addr: 0,
            rx: 0,
            full: false,
            lost: false,
            flag: false,
        }),
        Some(DevState::Sensor {
            value: 0,
            asked: false,
            flag: false,
        }),
        Some(NEW_SERIAL),
        None,
        None,
    ],
};
