//! The files of an application of so many modules, and the line of its run.

ghost use Rattle.std.specs.Prelude.{◌≡◌, ◌≤◌, Some, IfOk, false, string_bytes};
ghost use Rattle.nm_base.specs.Plain.{texts_of};
ghost use Rattle.mote_run.specs.Held.{IsFresh, board_in, image_in};
ghost use Rattle.mote_run.specs.Rows.{DoNotFall};
ghost use Rattle.mote_run.specs.Totals.{totals_of};
ghost use Rattle.mote_bus.specs.Mote.{mote as mote_run_of};
ghost use Rattle.generated_files.specs.Schedule.{generated_rows};
ghost use Rattle.nm_driver.specs.declared.answer.Stop.TheVariants.{Says as StopSays};
ghost use Rattle.nm_driver.specs.Generated.{generated_slots, told_of, totals_line};
ghost use Rattle.nm_driver.specs.Prepared.{IfSays, IsInside};

use crate::answer::{Answer, Stop};
use crate::status::Status;
use generated_files::{MAX_MODULES, gen_files, gen_rows};
use mote_devices::{Device, Due};
use mote_run::{AsMote, MoteOf, Totals, summary};
use nm_base::{NoMemory, PlainFiles};
use std::alloc::Global;

/// The files of so many modules.
pub(crate) fn files_of(alloc: Global, modules: u32) -> Result<PlainFiles, NoMemory>
    requires some { 1 ≤ modules }
    requires at_most { modules ≤ MAX_MODULES }
    ensures { IfOk result (λ files. texts_of files ≡ Some (told_of modules)) }
{
    Ok(PlainFiles::new(gen_files(alloc, modules)?))
}

fn is_outside(status: &Status) -> bool
    ensures { result ≡ false → IsInside status.now }
{
    matches!(status, Status::ReadFault | Status::Missing(_))
}

fn inner(answer: Answer) -> Stop
    ensures same { IfSays result (λ a. a ≡ answer) }
    ensures inside { IfSays result (λ a. IsInside a.status) }
{
    if is_outside(&answer.status) {
        return Stop::NoMemory;
    }
    Stop::Says(answer)
}

/// An answer about the files that are made. None of them is missing and none fails; such an answer would be want of memory.
pub(crate) fn of_generated(stop: Stop) -> Stop
    ensures same { IfSays result (λ a. stop ≡ StopSays a) }
    ensures inside { IfSays result (λ a. IsInside a.status) }
{
    match stop {
        Stop::Says(answer) => inner(answer),
        Stop::NoMemory => Stop::NoMemory,
    }
}

// The slots of the run.
#[tactic(auto, unfolding(crate::specs::Generated::generated_slots))]
fn slots() -> u32
    ensures { result ≡ generated_slots }
{
    1_000_000
}

// The rows of its schedule.
fn rows() -> [Due; 10]
    ensures rows { result ≡ generated_rows }
    ensures order { DoNotFall result }
{
    gen_rows()
}

// The totals of the run of a mote that was just loaded, and whether its processor is off in the end.
fn counted<D: Device>(mote: &mut MoteOf<D>) -> (Totals, bool)
    requires fresh { IsFresh (⟦<MoteOf<D> as AsMote>⟧.held mote.old) }
    ensures totals { let m = ⟦<MoteOf<D> as AsMote>⟧.held mote.old in result.0 ≡ totals_of (mote_run_of (image_in m) (board_in m) generated_rows generated_slots).shown }
    ensures off { let m = ⟦<MoteOf<D> as AsMote>⟧.held mote.old in result.1 ≡ (mote_run_of (image_in m) (board_in m) generated_rows generated_slots).off }
{
    let rows = rows();
    mote.total(&rows, slots())
}

/// The line of the run of a mote that was just loaded with an image of so many modules.
pub(crate) fn totals_line<D: Device>(
    alloc: Global,
    mote: &mut MoteOf<D>,
    modules: u32,
) -> Result<String, NoMemory>
    requires fresh { IsFresh (⟦<MoteOf<D> as AsMote>⟧.held mote.old) }
    ensures { let m = ⟦<MoteOf<D> as AsMote>⟧.held mote.old in IfOk result (λ line. string_bytes line ≡ totals_line modules (image_in m) (board_in m)) }
{
    let run = counted(mote);
    summary(alloc, modules, &run.0, run.1)
}
