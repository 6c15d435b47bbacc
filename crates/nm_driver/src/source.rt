//! What an application's files give.

ghost use Rattle.std.specs.Prelude.{◌≡◌, Some, IfOk, IfErr};
ghost use Rattle.nesc_core.specs.View.{program_of};
ghost use Rattle.nesc_core.specs.WellFormed.{IsWellFormed};
ghost use Rattle.nesc_preproc.specs.Expands.{Told};
ghost use Rattle.nesc_programs.specs.Programs.{IsProgram};
ghost use Rattle.nm_words.specs.declared.mode.Mode.{Mode};
ghost use Rattle.nm_driver.specs.Prepared.{IfSays, Reads, SaysOfSource};

use crate::answer::Stop;
use crate::faults::refused;
use nesc_programs::{Application, read_program};
use nm_base::{Files, Name};
use std::alloc::Global;
use wire_loading::Stopped;

/// The wired program of the application `app`, whose file is `app.nc`, and the files that were read for it.
pub(crate) fn read_application<F: Files>(
    alloc: Global,
    files: &mut F,
    app: &str,
) -> Result<Application, Stop>
    ensures outside { Reads result (F.seen files.old) (F.seen files.new) }
    ensures formed { IfOk result (λ a. IsWellFormed (program_of a.program)) }
    ensures program { IfOk result (λ a. (told : Told) → (F.seen files.old).texts ≡ Some told → IsProgram told app.now (program_of a.program) a.reading) }
    ensures says { IfErr result (λ s. IfSays s (λ a. (mode : Mode) → SaysOfSource (F.seen files.old).texts mode app.now a)) }
{
    let name = Name::new(alloc, app.as_bytes())?;
    match read_program(alloc, files, &name) {
        Ok(application) => Ok(application),
        Err(Stopped { fault, reading }) => Err(refused(alloc, app, &reading, None, fault)),
    }
}
