//! From what a command line asks for to a run that is due, or to an answer.

ghost use Rattle.std.specs.Prelude.{ℕ, List, IfOk, IfErr};
ghost use Rattle.mote_devices.specs.declared.state.BoardState.{BoardState};
ghost use Rattle.mote_run.specs.Rows.{DoNotFall};
ghost use Rattle.nm_words.specs.Asked.{AreWords, request, requested};
ghost use Rattle.nm_words.specs.Modes.{IsSubject};
ghost use Rattle.nm_driver.specs.Output.{IsDue, IsRun};
ghost use Rattle.nm_driver.specs.Prepared.{IfSays, Reads, line_of, text_on};

use crate::answer::Stop;
use crate::files::rows_of;
use crate::subject::{Subject, subject_of};
use mote_devices::Due;
use nm_base::Files;
use nm_words::Request;
use std::alloc::Global;

/// A run that is due: what is run, the rows of its schedule, and its number of slots.
#[derive(Drop)]
pub(crate) struct Prepared {
    pub subject: Subject,
    pub rows: Vec<Due>,
    pub budget: u32,
}

/// What a request asks for, from its files.
pub(crate) fn prepare<F: Files>(
    alloc: Global,
    wanted: Request,
    files: &mut F,
) -> Result<Prepared, Stop>
    requires { IsSubject wanted.mode wanted.subject.now }
    ensures outside { Reads result (F.seen files.old) (F.seen files.new) }
    ensures order { IfOk result (λ p. DoNotFall p.rows.items) }
    ensures output { IfOk result (λ p. (board : BoardState) → IsRun (F.seen files.old).texts (requested wanted.entry) board (text_on board p)) }
    ensures says { IfErr result (λ s. IfSays s (λ a. (words : List (List ℕ)) → AreWords words (request (requested wanted.entry)) → (board : BoardState)
        → IsDue (F.seen files.old).texts words board a.status (line_of a))) }
{
    let subject = subject_of(alloc, files, wanted.mode, wanted.subject)?;
    let rows = rows_of(alloc, files, wanted.schedule)?;
    Ok(Prepared {
        subject,
        rows,
        budget: wanted.budget,
    })
}
