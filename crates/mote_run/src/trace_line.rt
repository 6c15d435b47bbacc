//! The lines of a trace, gathered and written to a sink in large pieces.

ghost use Rattle.std.specs.Prelude.{◌≡◌, ◌+◌, ◌≤◌, ◌++◌, ◌∷◌, [], length, OnOk};
ghost use Rattle.mote_text.specs.TraceText.{event_line, end_text};
ghost use Rattle.mote_run.specs.declared.trace_line.TheConstants.{LONGEST, ROOM};
ghost use Rattle.mote_run.specs.Gathers.{Gathers, gathering};

use arrayvec::ArrayVec;
use mote_devices::Shown;
use mote_text::{End, Event, print_end, print_event};
use nm_base::{Sink, WriteFault, write_all};

/// How many bytes of lines wait at most.
pub(crate) const ROOM: usize = 8192;

/// No line is longer, with its end.
pub(crate) const LONGEST: usize = 65;

/// The lines that wait to be written.
pub(crate) type Waiting = ArrayVec<u8, ROOM>;

/// Puts the line of an event behind the lines that wait.
pub(crate) fn gather_event<S: Sink>(
    out: &mut S,
    waiting: &mut Waiting,
    slot: u32,
    shown: Shown,
) -> Result<(), WriteFault>
    ensures { Gathers result (gathering (S.seen out.old) waiting.old.items) (gathering (S.seen out.new) waiting.new.items) (event_line (slot, shown)) }
{
    let mut text = [0; 64];
    let length = print_event(&Event { slot, shown }, &mut text);
    gather_line(out, waiting, &text[..length])
}

/// Puts the last line behind the lines that wait.
pub(crate) fn gather_end<S: Sink>(
    out: &mut S,
    waiting: &mut Waiting,
    end: &End,
) -> Result<(), WriteFault>
    ensures { Gathers result (gathering (S.seen out.old) waiting.old.items) (gathering (S.seen out.new) waiting.new.items) (end_text end.now.slots end.now.ran end.now.least end.now.off ++ 10 ∷ []) }
{
    let mut text = [0; 64];
    let length = print_end(end, &mut text);
    gather_line(out, waiting, &text[..length])
}

/// Writes the lines that wait.
pub(crate) fn write_waiting<S: Sink>(out: &mut S, waiting: &mut Waiting) -> Result<(), WriteFault>
    ensures gathers { Gathers result (gathering (S.seen out.old) waiting.old.items) (gathering (S.seen out.new) waiting.new.items) [] }
    ensures none { OnOk result (waiting.new.items ≡ []) }
{
    write_all(out, waiting.as_slice())?;
    waiting.clear();
    Ok(())
}

// Where there is no room for a line, what waits is written.
fn make_room<S: Sink>(out: &mut S, waiting: &mut Waiting) -> Result<(), WriteFault>
    ensures gathers { Gathers result (gathering (S.seen out.old) waiting.old.items) (gathering (S.seen out.new) waiting.new.items) [] }
    ensures room { OnOk result (length waiting.new.items + LONGEST ≤ ROOM) }
{
    if waiting.remaining_capacity() >= LONGEST {
        return Ok(());
    }
    write_waiting(out, waiting)
}

fn gather_line<S: Sink>(out: &mut S, waiting: &mut Waiting, text: &[u8]) -> Result<(), WriteFault>
    requires { length text.now ≤ 64 }
    ensures { Gathers result (gathering (S.seen out.old) waiting.old.items) (gathering (S.seen out.new) waiting.new.items) (text.now ++ 10 ∷ []) }
{
    make_room(out, waiting)?;
    push(waiting, text);
    Ok(())
}

// A text and the end of its line.
fn push(waiting: &mut Waiting, text: &[u8])
    requires { length waiting.old.items + length text.now + 1 ≤ ROOM }
    ensures { waiting.new.items ≡ waiting.old.items ++ (text.now ++ 10 ∷ []) }
{
    // There is room.
    let _ = waiting.try_extend_from_slice(text);
    waiting.push(b'\n');
}
