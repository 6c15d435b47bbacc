//! Answers with their one line.

ghost use Rattle.std.specs.Prelude.{◌≡◌, ◌++◌, ◌∷◌, [], None, IfOk, OnOk, codes, decimal};
ghost use Rattle.nm_driver.specs.declared.answer.Stop.TheVariants.{NoMemory as StopNoMemory, Says as StopSays};
ghost use Rattle.nm_driver.specs.Lines.{answer_line, limit_text, number_text, place_text, refusal_text, room_text};
ghost use Rattle.nm_driver.specs.Prepared.{detail_in, file_in, line_of};

use crate::status::Status;
use nm_base::{Limit, Name, NoMemory, Refusal, Room};
use std::alloc::{AllocError, Global};

/// Where a refusal stands: its file, and what is told behind its numbers.
#[derive(Drop)]
pub(crate) struct Place {
    pub file: Name,
    pub detail: Vec<u8>,
}

/// What is to be answered, and where a refusal stands.
#[derive(Drop)]
pub(crate) struct Answer {
    pub status: Status,
    pub place: Option<Place>,
}

/// Why there is no run: an answer, or want of memory.
#[derive(Drop)]
pub(crate) enum Stop {
    Says(Answer),
    NoMemory,
}

impl From<NoMemory> for Stop {
    ghost from_gives = { λ _ e. e ≡ StopNoMemory };

    fn from(_error: NoMemory) -> Stop {
        Stop::NoMemory
    }
}

impl From<AllocError> for Stop {
    ghost from_gives = { λ _ e. e ≡ StopNoMemory };

    fn from(_error: AllocError) -> Stop {
        Stop::NoMemory
    }
}

fn number_text(alloc: Global, refusal: &Refusal) -> Result<Vec<u8>, NoMemory>
    ensures { IfOk result (λ v. v.items ≡ number_text refusal.now) }
{
    let number = refusal.number();
    let tens = number / 10;
    let ones = number % 10;
    let text = format!(in alloc; "refused E{tens}{ones} ")?;
    Ok(text.as_bytes().to_vec(alloc)?)
}

fn push_place(alloc: Global, text: &mut Vec<u8>, refusal: &Refusal) -> Result<(), NoMemory>
    ensures { OnOk result (text.new.items ≡ text.old.items ++ place_text refusal.now) }
{
    let pos = refusal.pos();
    let line = pos.line;
    let column = pos.col;
    let place = format!(in alloc; ":{line}:{column}")?;
    text.extend_from_slice(place.as_bytes())?;
    Ok(())
}

fn refusal_line(
    alloc: Global,
    file: &[u8],
    detail: &[u8],
    refusal: &Refusal,
) -> Result<Vec<u8>, NoMemory>
    ensures { IfOk result (λ v. v.items ≡ refusal_text file.now detail.now refusal.now ++ 10 ∷ []) }
{
    let mut text = number_text(alloc, refusal)?;
    text.extend_from_slice(file)?;
    push_place(alloc, &mut text, refusal)?;
    text.extend_from_slice(detail)?;
    text.push(b'\n')?;
    Ok(text)
}

fn missing_line(alloc: Global, name: &[u8]) -> Result<Vec<u8>, NoMemory>
    ensures { IfOk result (λ v. v.items ≡ codes "missing " ++ (name.now ++ 10 ∷ [])) }
{
    let mut text = b"missing ".to_vec(alloc)?;
    text.extend_from_slice(name)?;
    text.push(b'\n')?;
    Ok(text)
}

fn limit_line(alloc: Global, limit: &Limit) -> Result<Vec<u8>, NoMemory>
    ensures { IfOk result (λ v. v.items ≡ limit_text limit.now) }
{
    let name = limit.which.name();
    let have = limit.have;
    let text = format!(in alloc; "limit {name} {have}\n")?;
    Ok(text.as_bytes().to_vec(alloc)?)
}

fn room_line(alloc: Global, room: Room, need: u32) -> Result<Vec<u8>, NoMemory>
    ensures { IfOk result (λ v. v.items ≡ room_text room need) }
{
    let text = match room {
        Room::Code => format!(in alloc; "too large code {need} of 49120\n")?,
        Room::Ram => format!(in alloc; "too large ram {need} of 10240\n")?,
    };
    Ok(text.as_bytes().to_vec(alloc)?)
}

// The line about a text's first refused line.
fn numbered_line(alloc: Global, what: &str, line: u32) -> Result<Vec<u8>, NoMemory>
    ensures { IfOk result (λ v. v.items ≡ what.now ++ (codes " line " ++ (decimal line ++ 10 ∷ []))) }
{
    let text = format!(in alloc; "{what} line {line}\n")?;
    Ok(text.as_bytes().to_vec(alloc)?)
}

// The line of an answer, where a refusal stands in this file and has this detail.
fn answer_line(
    alloc: Global,
    file: &[u8],
    detail: &[u8],
    status: &Status,
) -> Result<Vec<u8>, NoMemory>
    ensures { IfOk result (λ v. v.items ≡ answer_line file.now detail.now status.now) }
{
    match status {
        Status::Refused(refusal) => refusal_line(alloc, file, detail, refusal),
        Status::Usage => {
            Ok(b"usage: nescmote MODE APP [SCHEDULE] [--budget N]\n".to_vec(alloc)?)
        }
        Status::Missing(name) => missing_line(alloc, name.as_bytes()),
        Status::ReadFault => Ok(b"read fault\n".to_vec(alloc)?),
        Status::BadSchedule(line) => numbered_line(alloc, "schedule", *line),
        Status::BadImage(line) => numbered_line(alloc, "image", *line),
        Status::Limit(limit) => limit_line(alloc, limit),
        Status::TooLarge(room, need) => room_line(alloc, *room, *need),
        Status::Done | Status::WriteFault | Status::NoMemory => Ok(Vec::new(alloc)),
    }
}

fn file_in(place: &Option<Place>) -> &[u8]
    ensures { result.now ≡ file_in place.now }
{
    match place {
        Some(place) => place.file.as_bytes(),
        None => b"",
    }
}

fn detail_in(place: &Option<Place>) -> &[u8]
    ensures { result.now ≡ detail_in place.now }
{
    match place {
        Some(place) => place.detail.as_slice(),
        None => b"",
    }
}

/// The line of an answer.
pub(crate) fn line_of(alloc: Global, answer: &Answer) -> Result<Vec<u8>, NoMemory>
    ensures { IfOk result (λ v. v.items ≡ line_of answer.now) }
{
    answer_line(
        alloc,
        file_in(&answer.place),
        detail_in(&answer.place),
        &answer.status,
    )
}

/// The answer with this status, where no place in a file is told.
pub(crate) fn says(status: Status) -> Stop
    ensures { result ≡ StopSays (record { status = status; place = None }) }
{
    Stop::Says(Answer {
        status,
        place: None,
    })
}
