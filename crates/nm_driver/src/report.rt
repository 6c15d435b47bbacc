//! The race report of an application's program.

ghost use Rattle.std.specs.Prelude.{◌≡◌, IfOk, IfErr};
ghost use Rattle.nesc_preproc.specs.Kept.{name_at};
ghost use Rattle.nesc_core.specs.View.{program_of};
ghost use Rattle.nesc_core.specs.WellFormed.{IsWellFormed};
ghost use Rattle.race_checker.specs.Computed.{report_of};
ghost use Rattle.nm_words.specs.declared.mode.Mode.{Mode};
ghost use Rattle.nm_driver.specs.Applications.{IsAccepted, IsRefusedIn};
ghost use Rattle.nm_driver.specs.Prepared.{IfSays, SaysOfProgram};
ghost use Rattle.nm_driver.specs.RunText.{IsReportText};

use crate::answer::Stop;
use crate::faults::refused;
use call_graph::graph;
use counted_programs::is_counted;
use nesc_core::Program;
use nesc_programs::Application;
use nm_base::Fault;
use race_checker::{Row, each_report_is_computed};
use race_report::report;
use race_text::print_report;
use std::alloc::Global;

// The rows of a program whose bodies, nodes and objects can be counted; one with more is want of memory.
fn rows_of(alloc: Global, p: &Program) -> Result<Vec<Row>, Fault>
    requires formed { IsWellFormed (program_of p.now) }
    ensures rows { IfOk result (λ rows. rows.items ≡ report_of (program_of p.now)) }
    ensures accepted { IfOk result (λ _. IsAccepted (program_of p.now)) }
    ensures refused { IfErr result (λ e. (mode : Mode) → IsRefusedIn mode (program_of p.now) e) }
{
    if !is_counted(p) {
        return Err(Fault::NoMemory);
    }
    let graph = graph(alloc, p)?;
    report(alloc, p, &graph)
}

/// The text of the report of an application's program. Refuses a cycle of calls, an item without `async` that a handler reaches, and too many rows.
pub(crate) fn report_text(alloc: Global, app: &str, a: &Application) -> Result<Vec<u8>, Stop>
    requires formed { IsWellFormed (program_of a.now.program) }
    ensures reports { IfOk result (λ text. IsReportText (name_at a.now.reading) (program_of a.now.program) text.items) }
    ensures accepted { IfOk result (λ _. IsAccepted (program_of a.now.program)) }
    ensures says { IfErr result (λ s. IfSays s (λ answer. (mode : Mode) → SaysOfProgram mode app.now a.now answer)) }
{
    each_report_is_computed();
    match rows_of(alloc, &a.program) {
        Ok(rows) => Ok(print_report(alloc, &a.program, &a.reading, rows.as_slice())?),
        Err(fault) => Err(refused(alloc, app, &a.reading, Some(&a.program), fault)),
    }
}
