//! The answers to faults, and where refusals stand.

ghost use Rattle.std.specs.Prelude.{◌≡◌, ◌++◌, Some, IfOk, OnOk, codes};
ghost use Rattle.std.specs.Option.{option_map};
ghost use Rattle.nesc_core.specs.View.{program_of};
ghost use Rattle.wire_loading.specs.Needs.{file_of};
ghost use Rattle.nm_driver.specs.Lines.{answer_line, chain_text, detail};
ghost use Rattle.nm_driver.specs.NamedFiles.{status_of};
ghost use Rattle.nm_driver.specs.Output.{place_file};
ghost use Rattle.nm_driver.specs.Prepared.{IfSays, IsNoMemory, SaysFault, SaysUnbuilt, detail_in, fault_detail, fault_file, file_in, line_of};

use crate::answer::{Answer, Place, Stop};
use crate::status::Status;
use nesc_core::Program;
use nesc_preproc::Reading;
use nm_base::{Fault, Name, NoMemory, Path, Refusal};
use race_text::push_path;
use std::alloc::Global;

// The name of an application's file.
fn source_file(alloc: Global, app: &str) -> Result<Name, NoMemory>
    ensures { IfOk result (λ name. name ≡ file_of app.now) }
{
    let file = format!(in alloc; "{app}.nc")?;
    Name::new(alloc, file.as_bytes())
}

// The name of the file in which a refusal stands.
fn place_file(
    alloc: Global,
    reading: &Reading,
    app: &str,
    refusal: &Refusal,
) -> Result<Name, NoMemory>
    ensures { IfOk result (λ name. name ≡ place_file reading.now app.now refusal.now) }
{
    match reading.name(refusal.pos().file) {
        Some(name) => Ok(name.clone()?),
        None => source_file(alloc, app),
    }
}

// A chain of calls in a program, behind a space.
fn push_chain(text: &mut Vec<u8>, program: Option<&Program>, path: &Path) -> Result<(), NoMemory>
    ensures { OnOk result (text.new.items ≡ text.old.items ++ chain_text (option_map (λ p. program_of p.now) program.entry) path.now) }
{
    let Some(program) = program else {
        return Ok(());
    };
    text.push(b' ')?;
    push_path(text, program, path)
}

// What stands behind the place of a refusal.
fn detail(alloc: Global, program: Option<&Program>, refusal: &Refusal) -> Result<Vec<u8>, NoMemory>
    ensures { IfOk result (λ text. text.items ≡ detail (option_map (λ p. program_of p.now) program.entry) refusal.now) }
{
    let mut text = Vec::new(alloc);
    match refusal {
        Refusal::LeftOut(_, left) => {
            text.push(b' ')?;
            text.extend_from_slice(left.word().as_bytes())?;
        }
        Refusal::Recursion(_, path) | Refusal::NotAsync(_, path) => {
            push_chain(&mut text, program, path)?;
        }
        _ => {}
    }
    Ok(text)
}

// Where a fault stands, where it is a refusal.
fn place(
    alloc: Global,
    app: &str,
    reading: &Reading,
    program: Option<&Program>,
    fault: &Fault,
) -> Result<Option<Place>, NoMemory>
    ensures file { IfOk result (λ place. file_in place ≡ fault_file reading.now app.now fault.now) }
    ensures detail { IfOk result (λ place. detail_in place ≡ fault_detail (option_map (λ p. program_of p.now) program.entry) fault.now) }
{
    let Fault::Refused(refusal) = fault else {
        return Ok(None);
    };
    Ok(Some(Place {
        file: place_file(alloc, reading, app, refusal)?,
        detail: detail(alloc, program, refusal)?,
    }))
}

// The answer that a fault gives.
fn status_of(fault: Fault) -> Status
    ensures { result ≡ status_of fault }
{
    match fault {
        Fault::Refused(refusal) => Status::Refused(refusal),
        Fault::Missing(name) => Status::Missing(name),
        Fault::ReadFault => Status::ReadFault,
        Fault::Limit(limit) => Status::Limit(limit),
        Fault::TooLarge(room, need) => Status::TooLarge(room, need),
        Fault::NoMemory => Status::NoMemory,
    }
}

// The answer to a fault at a place.
fn says_fault(place: Option<Place>, fault: Fault) -> Stop
    ensures status { IfSays result (λ a. a.status ≡ status_of fault) }
    ensures line { IfSays result (λ a. line_of a ≡ answer_line (file_in place) (detail_in place) (status_of fault)) }
    ensures found { IfSays result (λ a. IsNoMemory fault → ⊥) }
{
    if let Fault::NoMemory = fault {
        return Stop::NoMemory;
    }
    Stop::Says(Answer {
        status: status_of(fault),
        place,
    })
}

/// The answer to the fault of an image, which stands in no text.
pub(crate) fn unbuilt(fault: Fault) -> Stop
    ensures { IfSays result (SaysUnbuilt fault) }
{
    says_fault(None, fault)
}

/// The answer to a fault of an application, with its place in the files that were read, and the bodies of its program where it has one.
pub(crate) fn refused(
    alloc: Global,
    app: &str,
    reading: &Reading,
    program: Option<&Program>,
    fault: Fault,
) -> Stop
    ensures { IfSays result (SaysFault app.now reading.now (option_map (λ p. program_of p.now) program.entry) fault) }
{
    match place(alloc, app, reading, program, &fault) {
        Ok(place) => says_fault(place, fault),
        Err(NoMemory) => Stop::NoMemory,
    }
}
