//! The top call: from the words of a command line to what is written.

ghost use Rattle.std.specs.Prelude.{◌≡◌, ◌≤◌, ◌++◌, ℕ, List, map, string_bytes, vec_len};
ghost use Rattle.nm_base.specs.Outside.{Writes};
ghost use Rattle.mote_bus.specs.Slots.{board_of};
ghost use Rattle.mote_run.specs.Held.{IsFresh, board_in, image_in};
ghost use Rattle.mote_run.specs.Rows.{DoNotFall};
ghost use Rattle.mote_run.specs.RunText.{mote_text};
ghost use Rattle.nm_words.specs.Asked.{AreWords, request, requested};
ghost use Rattle.nm_words.specs.Modes.{IsSubject};
ghost use Rattle.nm_driver.specs.Output.{IsAnswer};
ghost use Rattle.nm_driver.specs.Prepared.{Ends, IsRunStatus, Performs, built_bytes, head_bytes, line_before, run_text_on, text_on, totals_text_on};

use crate::answer::{Stop, line_of, says};
use crate::generated::totals_line;
use crate::prepared::{Prepared, prepare};
use crate::status::Status;
use crate::subject::{Built, Head, Tail};
use mote_bus::Board;
use mote_devices::{Device, Due};
use mote_run::{AsMote, BoardMote, MoteOf};
use mote_text::{Loaded, print_image};
use nesc_programs::one_application;
use nm_base::{Files, Sink, WriteFault, write_all};
use nm_words::{Asked, HELP, Request, VERSION, WordsFault, asked_by};
use std::alloc::Global;

/// Does what the words behind the program's name ask for, on a mote with these devices in its first slots, at most eight:
/// `check APP` prints the race report of the application of the file `APP.nc`, `build APP` prints its image behind that, and
/// `run APP SCHEDULE` runs the image as well; `mote IMAGE SCHEDULE` runs an image that stands in a file; `gen N` makes the files of an application of
/// N modules, prints what `build` prints of it, and a line of the totals of its run. `--budget N` is the number of slots of `run` and `mote`, 10,000 where it is left out. `--help` and
/// `--version` print their texts.
pub fn tool<F: Files, S: Sink>(
    alloc: Global,
    words: &[String],
    files: &mut F,
    out: &mut S,
    board: Vec<Box<dyn Device>>,
) -> Status
    requires devices { vec_len board ≤ 8 }
    ensures { IsAnswer (map string_bytes words.now) (board_of (map ⟦<Box<dyn Device> as Device>⟧.state board.items)) result
        (F.seen files.old) (F.seen files.new) (S.seen out.old) (S.seen out.new) }
{
    match asked_by(alloc, words) {
        Ok(Asked::Request(wanted)) => answer_request(alloc, wanted, files, out, board),
        Ok(Asked::Help) => write_text(out, HELP),
        Ok(Asked::Version) => write_text(out, VERSION),
        Err(WordsFault::Usage) => write_answer(alloc, says(Status::Usage), out),
        Err(WordsFault::NoMemory) => Status::NoMemory,
    }
}

fn answer_request<F: Files, S: Sink>(
    alloc: Global,
    wanted: Request,
    files: &mut F,
    out: &mut S,
    board: Vec<Box<dyn Device>>,
) -> Status
    requires devices { vec_len board ≤ 8 }
    requires subject { IsSubject wanted.mode wanted.subject.now }
    ensures { (words : List (List ℕ)) → AreWords words (request (requested wanted.entry)) →
        IsAnswer words (board_of (map ⟦<Box<dyn Device> as Device>⟧.state board.items)) result (F.seen files.old) (F.seen files.new) (S.seen out.old) (S.seen out.new) }
{
    one_application();
    match prepare(alloc, wanted, files) {
        Ok(prepared) => perform(alloc, &prepared, board, out),
        Err(stop) => write_answer(alloc, stop, out),
    }
}

// Writes a text of the command line's own.
fn write_text<S: Sink>(out: &mut S, text: &str) -> Status
    ensures kind { IsRunStatus result }
    ensures wrote { Performs result (S.seen out.old) (S.seen out.new) text.now }
{
    match write_all(out, text.as_bytes()) {
        Ok(()) => Status::Done,
        Err(WriteFault) => Status::WriteFault,
    }
}

// Writes the line of an answer without a run.
fn write_answer<S: Sink>(alloc: Global, stop: Stop, out: &mut S) -> Status
    ensures { Ends stop result (S.seen out.old) (S.seen out.new) }
{
    let Stop::Says(answer) = stop else {
        return Status::NoMemory;
    };
    let Ok(line) = line_of(alloc, &answer) else {
        return Status::NoMemory;
    };
    match write_all(out, &line) {
        Ok(()) => answer.status,
        Err(WriteFault) => Status::WriteFault,
    }
}

// Writes what is printed of an application, and runs what is run on this board.
fn perform<S: Sink>(
    alloc: Global,
    prepared: &Prepared,
    board: Vec<Box<dyn Device>>,
    out: &mut S,
) -> Status
    requires devices { vec_len board ≤ 8 }
    requires order { DoNotFall prepared.now.rows.items }
    ensures kind { IsRunStatus result }
    ensures wrote { Performs result (S.seen out.old) (S.seen out.new) (text_on (board_of (map ⟦<Box<dyn Device> as Device>⟧.state board.items)) prepared.now) }
{
    match &prepared.subject.tail {
        Tail::Trace(image) => run_image(alloc, prepared, image, board, out),
        Tail::Totals(modules, image) => {
            let head = &prepared.subject.head;
            count_image(alloc, head, *modules, image, board, out)
        }
        Tail::Nothing => match write_head(&prepared.subject.head, out) {
            Ok(()) => Status::Done,
            Err(WriteFault) => Status::WriteFault,
        },
    }
}

// Runs an image on its board, behind what is printed before.
fn run_image<S: Sink>(
    alloc: Global,
    prepared: &Prepared,
    image: &Loaded,
    board: Vec<Box<dyn Device>>,
    out: &mut S,
) -> Status
    requires devices { vec_len board ≤ 8 }
    requires order { DoNotFall prepared.now.rows.items }
    ensures kind { IsRunStatus result }
    ensures wrote { Performs result (S.seen out.old) (S.seen out.new) (run_text_on (board_of (map ⟦<Box<dyn Device> as Device>⟧.state board.items)) prepared.now image.now) }
{
    let Ok(mut mote) = BoardMote::load(alloc, image, Board::new(board)) else {
        return Status::NoMemory;
    };
    let rows = prepared.rows.as_slice();
    match write_run(
        &prepared.subject.head,
        &mut mote,
        rows,
        prepared.budget,
        out,
    ) {
        Ok(()) => Status::Done,
        Err(WriteFault) => Status::WriteFault,
    }
}

// Counts the run of an image of so many modules on its board, and writes the line of the totals, behind what is printed before.
fn count_image<S: Sink>(
    alloc: Global,
    head: &Option<Head>,
    modules: u32,
    image: &Loaded,
    devices: Vec<Box<dyn Device>>,
    out: &mut S,
) -> Status
    requires devices { vec_len devices ≤ 8 }
    ensures kind { IsRunStatus result }
    ensures wrote { Performs result (S.seen out.old) (S.seen out.new) (totals_text_on (board_of (map ⟦<Box<dyn Device> as Device>⟧.state devices.items)) head.now modules image.now) }
{
    let Ok(mut mote) = BoardMote::load(alloc, image, Board::new(devices)) else {
        return Status::NoMemory;
    };
    let Ok(line) = totals_line(alloc, &mut mote, modules) else {
        return Status::NoMemory;
    };
    match write_totals(head, line.as_str(), out) {
        Ok(()) => Status::Done,
        Err(WriteFault) => Status::WriteFault,
    }
}

// What stands before the line of the totals, and this line.
fn write_totals<S: Sink>(head: &Option<Head>, line: &str, out: &mut S) -> Result<(), WriteFault>
    ensures { Writes result (S.seen out.old) (S.seen out.new) (head_bytes head.now ++ line.now) }
{
    write_head(head, out)?;
    write_all(out, line.as_bytes())
}

// The sizes of what was built, and its image.
fn write_built<S: Sink>(built: &Option<Built>, out: &mut S) -> Result<(), WriteFault>
    ensures { Writes result (S.seen out.old) (S.seen out.new) (built_bytes built.now) }
{
    let Some(built) = built else {
        return Ok(());
    };
    write_all(out, built.sizes.as_bytes())?;
    print_image(&built.image, out)
}

// What stands before the trace, where something does.
fn write_head<S: Sink>(head: &Option<Head>, out: &mut S) -> Result<(), WriteFault>
    ensures { Writes result (S.seen out.old) (S.seen out.new) (head_bytes head.now) }
{
    let Some(head) = head else {
        return Ok(());
    };
    write_all(out, head.report.as_slice())?;
    write_built(&head.built, out)
}

// The line between that and the trace.
fn write_line<S: Sink>(head: &Option<Head>, out: &mut S) -> Result<(), WriteFault>
    ensures { Writes result (S.seen out.old) (S.seen out.new) (line_before head.now) }
{
    match head {
        Some(_) => write_all(out, b"trace\n"),
        None => Ok(()),
    }
}

// What stands before the trace, and the trace.
fn write_run<S: Sink, D: Device>(
    head: &Option<Head>,
    mote: &mut MoteOf<D>,
    rows: &[Due],
    budget: u32,
    out: &mut S,
) -> Result<(), WriteFault>
    requires fresh { IsFresh (⟦<MoteOf<D> as AsMote>⟧.held mote.old) }
    requires order { DoNotFall rows.now }
    ensures { Writes result (S.seen out.old) (S.seen out.new) (head_bytes head.now ++ (line_before head.now
        ++ mote_text (image_in (⟦<MoteOf<D> as AsMote>⟧.held mote.old)) (board_in (⟦<MoteOf<D> as AsMote>⟧.held mote.old)) rows.now budget)) }
{
    write_head(head, out)?;
    write_line(head, out)?;
    mote.run(rows, budget, out)?;
    Ok(())
}
