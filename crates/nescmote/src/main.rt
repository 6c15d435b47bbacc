//! The program: the top call over the files of the current folder, standard output, and a board of five devices.
#![tactic(auto)]

ghost use Rattle.std.specs.Prelude.{◌≡◌, map, string_bytes, IfOk, OnErr};
ghost use Rattle.std.specs.Process.{exit_status};
ghost use Rattle.mote_bus.specs.Slots.{board_of};
ghost use Rattle.mote_devices.specs.WordBoards.{IsWordBoard};
ghost use Rattle.nm_driver.specs.Output.{IsAnswer};
ghost use Rattle.nescmote.specs.Answered.{IsAnswered, new_devices, words_or_none};

use mote_devices::{Device, Leds, Radio, Sensor, Serial, Timer};
use nm_base::{Files, FolderFiles, NoMemory, Sink, StdSink};
use nm_driver::{Status, tool};
use std::alloc::Global;
use std::io::ErrorKind;
use std::process::ExitCode;
use std::{env, io};

// The words behind the program's name.
fn words(rt: &HostRuntime) -> io::Result<Vec<String>> {
    Ok(env::args(rt)?.skip(1).collect(rt.alloc())?)
}

// The answer to words, on a board with five devices in the order of their slots.
fn answer_to<F: Files, S: Sink>(
    alloc: Global,
    words: &[String],
    files: &mut F,
    out: &mut S,
) -> Result<Status, NoMemory>
    ensures ok { IfOk result (λ status. IsAnswer (map string_bytes words.now) (board_of new_devices) status (F.seen files.old) (F.seen files.new) (S.seen out.old) (S.seen out.new)) }
    ensures files { OnErr result (F.seen files.new ≡ F.seen files.old) }
    ensures out { OnErr result (S.seen out.new ≡ S.seen out.old) }
{
    let leds: Box<dyn Device> = Box::new(alloc, Leds::new())?;
    let timer: Box<dyn Device> = Box::new(alloc, Timer::new())?;
    let serial: Box<dyn Device> = Box::new(alloc, Serial::new())?;
    let radio: Box<dyn Device> = Box::new(alloc, Radio::new())?;
    let sensor: Box<dyn Device> = Box::new(alloc, Sensor::new())?;
    let board = vec![in alloc; leds, timer, serial, radio, sensor]?;
    Ok(tool(alloc, words, files, out, board))
}

// The answer to the words, where words that are no text are none.
fn answer<F: Files, S: Sink>(
    alloc: Global,
    words: io::Result<Vec<String>>,
    files: &mut F,
    out: &mut S,
) -> Status
    ensures { IsAnswer (words_or_none (λ ws. map string_bytes ws.items) words) (board_of new_devices) result (F.seen files.old) (F.seen files.new) (S.seen out.old) (S.seen out.new) }
{
    match words {
        Ok(words) => answer_to(alloc, &words, files, out).unwrap_or(Status::NoMemory),
        Err(error) if error.kind() == ErrorKind::OutOfMemory => Status::NoMemory,
        Err(_) => answer_to(alloc, &[], files, out).unwrap_or(Status::NoMemory),
    }
}

// The number of that answer. The registers of the board hold words.
#[tactic(auto, using(crate::proofs::Board::board_of_words))]
fn run<F: Files, S: Sink>(
    alloc: Global,
    words: io::Result<Vec<String>>,
    files: &mut F,
    out: &mut S,
) -> ExitCode
    ensures answer { IsAnswered (words_or_none (λ ws. map string_bytes ws.items) words) (F.seen files.old) (F.seen files.new) (S.seen out.old) (S.seen out.new) (exit_status result) }
    ensures board { IsWordBoard (board_of new_devices) }
{
    let status = answer(alloc, words, files, out);
    ExitCode::from(status.code())
}

fn main(rt: HostRuntime) -> ExitCode {
    let mut files = FolderFiles::new(rt);
    let mut out = StdSink::new(rt);
    run(rt.alloc(), words(&rt), &mut files, &mut out)
}
