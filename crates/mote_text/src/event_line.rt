//! Events as text, and from it.

ghost use Rattle.std.specs.Prelude.{◌≡◌, ◌≤◌, ◌+◌, ◌++◌, Some, take, drop, length, IfSome};
ghost use Rattle.mote_text.specs.Hex.{hex_word};
ghost use Rattle.mote_text.specs.Lines.{words};
ghost use Rattle.mote_text.specs.TraceText.{and_number, event_text, shown_text};
ghost use Rattle.mote_text.specs.TraceWords.{event_of, shown_of, shown_of_one, shown_of_two, IsEvent};
ghost use Rattle.mote_text.specs.declared.trace.Event.{Event as EventOf};

use crate::Event;
use crate::line::{Line, copy, push, push_number, push_word};
use crate::lines::{cut, numeral};
use mote_devices::{Given, Shown};

// A space and a number.
fn push_and_number(line: &mut Line, number: u32)
    requires { length line.old.items + 11 ≤ 64 }
    ensures text { line.new.items ≡ line.old.items ++ and_number number }
    ensures short { length line.new.items ≤ length line.old.items + 11 }
{
    push(line, b" ");
    push_number(line, number);
}

// A port and the value there, behind a word.
fn push_access(line: &mut Line, word: &[u8], port: u16, value: u16)
    requires room { length line.old.items ≤ 10 }
    requires short { length word.now ≤ 5 }
    ensures { line.new.items ≡ line.old.items ++ (word.now ++ hex_word port ++ and_number value) }
{
    push(line, word);
    push_word(line, port);
    push_and_number(line, u32::from(value));
}

fn push_shown(line: &mut Line, shown: Shown)
    requires { length line.old.items ≤ 10 }
    ensures { line.new.items ≡ line.old.items ++ shown_text shown }
{
    match shown {
        Shown::Given(Given::Arrive(device, value)) => {
            push(line, b" arrive");
            push_and_number(line, u32::from(device));
            push_and_number(line, u32::from(value));
        }
        Shown::Given(Given::Unplug(device)) => {
            push(line, b" unplug");
            push_and_number(line, u32::from(device));
        }
        Shown::In(port, value) => push_access(line, b" in ", port, value),
        Shown::Out(port, value) => push_access(line, b" out ", port, value),
        Shown::Enter(vector) => {
            push(line, b" enter");
            push_and_number(line, u32::from(vector));
        }
        Shown::Fault(code) => {
            push(line, b" fault");
            push_and_number(line, u32::from(code));
        }
    }
}

// An event's line, without its end.
fn line_of(event: &Event) -> Line
    ensures { result.items ≡ event_text event.now.slot event.now.shown }
{
    let mut line = Line::new();
    push_number(&mut line, event.slot);
    push_shown(&mut line, event.shown);
    line
}

/// Writes an event's line, without its end, into the front of the buffer; how many bytes it has.
pub fn print_event(event: &Event, buffer: &mut [u8; 64]) -> usize
    ensures fits { result ≤ 64 }
    ensures line { take result buffer.new ≡ event_text event.now.slot event.now.shown }
    ensures rest { drop result buffer.new ≡ drop result buffer.old }
{
    copy(&line_of(event), buffer)
}

fn shown_of_one(verb: &[u8], operand: &[u8]) -> Option<Shown>
    ensures { result ≡ shown_of_one verb.now operand.now }
{
    if verb == b"unplug".as_slice() {
        return Some(Shown::Given(Given::Unplug(numeral(operand, 10, 255)? as u8)));
    }
    if verb == b"enter".as_slice() {
        return Some(Shown::Enter(numeral(operand, 10, 255)? as u8));
    }
    if verb == b"fault".as_slice() {
        return Some(Shown::Fault(numeral(operand, 10, 65535)? as u16));
    }
    None
}

fn shown_of_two(verb: &[u8], first: &[u8], second: &[u8]) -> Option<Shown>
    ensures { result ≡ shown_of_two verb.now first.now second.now }
{
    if verb == b"arrive".as_slice() {
        let device = numeral(first, 10, 255)? as u8;
        let value = numeral(second, 10, 65535)? as u16;
        return Some(Shown::Given(Given::Arrive(device, value)));
    }
    if verb == b"in".as_slice() {
        let port = numeral(first, 16, 65535)? as u16;
        let value = numeral(second, 10, 65535)? as u16;
        return Some(Shown::In(port, value));
    }
    if verb == b"out".as_slice() {
        let port = numeral(first, 16, 65535)? as u16;
        let value = numeral(second, 10, 65535)? as u16;
        return Some(Shown::Out(port, value));
    }
    None
}

fn shown_of(verb: &[u8], operands: &[u8]) -> Option<Shown>
    ensures { result ≡ shown_of verb.now (words operands.now) }
{
    let Some((first, second)) = cut(operands, b' ') else {
        return shown_of_one(verb, operands);
    };
    match cut(second, b' ') {
        None => shown_of_two(verb, first, second),
        Some(_) => None,
    }
}

// The event that the words of a line tell, however its numbers are written.
fn event_of(line: &[u8]) -> Option<Event>
    ensures { result ≡ event_of (words line.now) }
{
    let (slot, rest) = cut(line, b' ')?;
    let (verb, operands) = cut(rest, b' ')?;
    let slot = numeral(slot, 10, u32::MAX)?;
    let shown = shown_of(verb, operands)?;
    Some(Event { slot, shown })
}

/// The event of which this is the line, without its end; None where it is no event's line.
pub fn read_event(line: &[u8]) -> Option<Event>
    ensures found { IfSome result (λ e. event_text e.slot e.shown ≡ line.now) }
    ensures every { (e : EventOf) → IsEvent e → event_text e.slot e.shown ≡ line.now → result ≡ Some e }
{
    let event = event_of(line)?;
    let printed = line_of(&event);
    if printed.as_slice() == line {
        Some(event)
    } else {
        None
    }
}
