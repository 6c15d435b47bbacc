//! Schedules: a row a line.

ghost use Rattle.std.specs.Prelude.{◌≡◌, ◌≤◌, ◌++◌, ◌∷◌, [], ◌==◌, Ok, Some, nat_eq, nat_le, codes, length, IfOk, IfErr, OnOk, string_bytes, MatchOption, if◌then◌else◌};
ghost use Rattle.std.specs.Cmp.Lexicographic.{pointwise};
ghost use Rattle.mote_text.specs.Lines.{words};
ghost use Rattle.mote_text.specs.ScheduleText.{IsSchedule, due_line, due_of_words, is_comment, next_due, schedule_of, schedule_text};
ghost use Rattle.mote_text.specs.Answers.{IsScheduleFault};

use crate::TextFault;
use crate::lines::{cut, cut_line, next_line, numeral};
use mote_devices::{Due, Given};
use nm_base::{Limit, NoMemory, Which};
use std::alloc::{AllocError, Global};
use std::fmt::Write;

/// The most rows that a schedule has.
const MOST_ROWS: usize = 100_000;

fn is_comment(line: &[u8]) -> bool
    ensures { result ≡ is_comment line.now }
{
    line.is_empty() || line[0] == b'#'
}

// The row of four words.
fn due_of(slot: &[u8], verb: &[u8], device: &[u8], value: &[u8]) -> Option<Due>
    ensures { result ≡ due_of_words (slot.now ∷ verb.now ∷ device.now ∷ value.now ∷ []) }
{
    if slot.len() > 10 || verb != b"arrive".as_slice() {
        return None;
    }
    let slot = numeral(slot, 10, u32::MAX)?;
    let device = numeral(device, 10, 7)?;
    let value = numeral(value, 10, 65535)?;
    let given = Given::Arrive(device as u8, value as u16);
    Some(Due { slot, given })
}

fn due_of_line(line: &[u8]) -> Option<Due>
    ensures { result ≡ due_of_words (words line.now) }
{
    let (slot, rest) = cut(line, b' ')?;
    let (verb, rest) = cut(rest, b' ')?;
    let (device, value) = cut(rest, b' ')?;
    match cut(value, b' ') {
        None => due_of(slot, verb, device, value),
        Some(_) => None,
    }
}

// The row of a line, where its slot is not before the last one.
fn next_due(last: u32, line: &[u8]) -> Option<Due>
    ensures { result ≡ next_due last line.now }
{
    let due = due_of_line(line)?;
    if last <= due.slot { Some(due) } else { None }
}

/// The rows of a schedule. Lines are `SLOT arrive DEVICE VALUE` with decimal numbers, comments behind `#`, or blank;
/// slots do not fall. `BadSchedule` has the first line that is refused; `Limit` comes where none is and there are more
/// than 100,000 rows.
#[tactic(auto, unfolding(crate::specs::ScheduleText::schedule_of))]
pub fn read_schedule(alloc: Global, text: &[u8]) -> Result<Vec<Due>, TextFault>
    ensures read { IfOk result (λ rows. schedule_of text.now ≡ Ok rows.items) }
    ensures few { IfOk result (λ rows. length rows.items ≤ 100000) }
    ensures fault { IfErr result (λ e. IsScheduleFault text.now e) }
{
    let mut rows = Vec::new(alloc);
    let mut last = 0;
    let mut number = 1;
    let mut rest = text;
    while let Some((line, behind)) = cut_line(rest) {
        if !is_comment(line) {
            let Some(due) = next_due(last, line) else {
                return Err(TextFault::BadSchedule(number));
            };
            last = due.slot;
            rows.push(due)?;
        }
        number = next_line(number);
        rest = behind;
    }
    if rows.len() > MOST_ROWS {
        return Err(TextFault::Limit(Limit {
            which: Which::Schedule,
            have: 100_001,
        }));
    }
    Ok(rows)
}

fn push_row(text: &mut String, due: &Due) -> Result<(), AllocError>
    ensures { OnOk result (string_bytes text.new ≡ string_bytes text.old ++ due_line due.now) }
{
    let slot = due.slot;
    match due.given {
        Given::Arrive(device, value) => write!(text, "{slot} arrive {device} {value}\n"),
        Given::Unplug(device) => write!(text, "{slot} unplug {device}\n"),
    }
}

fn rows_text(alloc: Global, rows: &[Due]) -> Result<Vec<u8>, NoMemory>
    ensures { IfOk result (λ text. text.items ≡ schedule_text rows.now) }
{
    let mut text = String::new(alloc);
    for due in rows {
        push_row(&mut text, due)?;
    }
    Ok(text.into_bytes())
}

/// The text of a schedule's rows, which reads back to them.
pub fn print_schedule(alloc: Global, rows: &[Due]) -> Result<Vec<u8>, NoMemory>
    requires { IsSchedule rows.now }
    ensures text { IfOk result (λ text. text.items ≡ schedule_text rows.now) }
    ensures back { IfOk result (λ text. schedule_of text.items ≡ Ok rows.now) }
{
    let text = rows_text(alloc, rows)?;
    Ok(text)
}
