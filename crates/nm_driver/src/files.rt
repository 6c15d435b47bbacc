//! What the files of schedules and images give.

ghost use Rattle.std.specs.Prelude.{◌≡◌, Some, IfOk, IfErr};
ghost use Rattle.std.specs.Option.{option_map};
ghost use Rattle.mote_devices.specs.WordBoards.{AreWordRows, IsWordGiven};
ghost use Rattle.mote_run.specs.Rows.{DoNotFall};
ghost use Rattle.nesc_preproc.specs.Expands.{Told};
ghost use Rattle.msp_isa.specs.Image.{bytes_map};
ghost use Rattle.nm_driver.specs.Lines.{plain_line};
ghost use Rattle.nm_driver.specs.NamedFiles.{FileStops, HasImage, HasRows, HasSchedule, ImageStops, IsRead, RowsStop, ScheduleStops};
ghost use Rattle.nm_driver.specs.Prepared.{IfSays, IsTextFault, Reads, SaysOf, line_of, text_status};

use crate::answer::{Stop, says};
use crate::status::Status;
use mote_devices::Due;
use mote_text::{Loaded, TextFault, read_image, read_schedule, schedules_are_of_words};
use nm_base::{Files, Found, Limit, MAX_FILE, Name, Which};
use std::alloc::Global;

// A file's content.
fn read_file<F: Files>(alloc: Global, files: &mut F, name: &str) -> Result<Vec<u8>, Stop>
    ensures outside { Reads result (F.seen files.old) (F.seen files.new) }
    ensures read { IfOk result (λ v. (told : Told) → (F.seen files.old).texts ≡ Some told → IsRead told name.now v.items) }
    ensures says { IfErr result (λ s. IfSays s (SaysOf (F.seen files.old).texts (λ told. FileStops told name.now))) }
{
    let name = Name::new(alloc, name.as_bytes())?;
    match files.read(alloc, &name) {
        Found::Bytes(bytes) if bytes.len() <= MAX_FILE as usize => Ok(bytes),
        Found::Bytes(_) => {
            let limit = Limit {
                which: Which::File,
                have: MAX_FILE + 1,
            };
            Err(says(Status::Limit(limit)))
        }
        Found::Missing => Err(says(Status::Missing(name))),
        Found::Failed => Err(says(Status::ReadFault)),
        Found::NoMemory => Err(Stop::NoMemory),
    }
}

// The answer about a text.
fn text_fault(fault: TextFault) -> Stop
    ensures status { IfSays result (λ a. a.status ≡ text_status fault) }
    ensures line { IfSays result (λ a. line_of a ≡ plain_line (text_status fault)) }
    ensures found { IfSays result (λ a. IsTextFault fault) }
{
    match fault {
        TextFault::BadImage(line) => says(Status::BadImage(line)),
        TextFault::BadSchedule(line) => says(Status::BadSchedule(line)),
        TextFault::Limit(limit) => says(Status::Limit(limit)),
        TextFault::NoMemory => Stop::NoMemory,
    }
}

// The rows of a schedule's file.
fn read_rows<F: Files>(alloc: Global, files: &mut F, name: &str) -> Result<Vec<Due>, Stop>
    ensures outside { Reads result (F.seen files.old) (F.seen files.new) }
    ensures order { IfOk result (λ rows. DoNotFall rows.items) }
    ensures words { IfOk result (λ rows. AreWordRows IsWordGiven rows.items) }
    ensures rows { IfOk result (λ rows. (told : Told) → (F.seen files.old).texts ≡ Some told → HasRows told name.now rows.items) }
    ensures says { IfErr result (λ s. IfSays s (SaysOf (F.seen files.old).texts (λ told. RowsStop told name.now))) }
{
    schedules_are_of_words();
    let text = read_file(alloc, files, name)?;
    match read_schedule(alloc, &text) {
        Ok(rows) => Ok(rows),
        Err(fault) => Err(text_fault(fault)),
    }
}

/// The rows of the schedule, where one is named.
pub(crate) fn rows_of<F: Files>(
    alloc: Global,
    files: &mut F,
    schedule: Option<&str>,
) -> Result<Vec<Due>, Stop>
    ensures outside { Reads result (F.seen files.old) (F.seen files.new) }
    ensures order { IfOk result (λ rows. DoNotFall rows.items) }
    ensures words { IfOk result (λ rows. AreWordRows IsWordGiven rows.items) }
    ensures rows { IfOk result (λ rows. (told : Told) → (F.seen files.old).texts ≡ Some told → HasSchedule told (option_map (λ s. s.now) schedule.entry) rows.items) }
    ensures says { IfErr result (λ s. IfSays s (SaysOf (F.seen files.old).texts (λ told. ScheduleStops told (option_map (λ s. s.now) schedule.entry)))) }
{
    match schedule {
        Some(name) => read_rows(alloc, files, name),
        None => Ok(Vec::new(alloc)),
    }
}

/// The bytes of an image's file.
pub(crate) fn read_loaded<F: Files>(
    alloc: Global,
    files: &mut F,
    name: &str,
) -> Result<Loaded, Stop>
    ensures outside { Reads result (F.seen files.old) (F.seen files.new) }
    ensures image { IfOk result (λ l. (told : Told) → (F.seen files.old).texts ≡ Some told → HasImage told name.now (bytes_map l)) }
    ensures says { IfErr result (λ s. IfSays s (SaysOf (F.seen files.old).texts (λ told. ImageStops told name.now))) }
{
    let text = read_file(alloc, files, name)?;
    match read_image(alloc, &text) {
        Ok(image) => Ok(image),
        Err(fault) => Err(text_fault(fault)),
    }
}
