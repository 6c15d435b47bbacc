//! From what elaboration is given to the wired program.

ghost use Rattle.std.specs.Prelude.{◌≡◌, IfOk, IfErr};
ghost use Rattle.elab_making.specs.View.{whole_of};
ghost use Rattle.elab_meaning.specs.Answers.{Follows};
ghost use Rattle.elab_targets.specs.Starts.{AreTables};
ghost use Rattle.elab_targets.specs.View.{application_of};
ghost use Rattle.nesc_core.specs.View.{program_of};
ghost use Rattle.nesc_core.specs.WellFormed.{IsWellFormed};
ghost use Rattle.program_meaning.specs.Modules as modules;
ghost use Rattle.program_meaning.specs.Program as spec;

use elab_making::{Whole, nothing};
use elab_modules::all_declared;
use elab_program::program;
use elab_targets::{Application, Tables, tables_of};
use nesc_core::Program;
use nm_base::{Fault, beside};
use std::alloc::Global;
use well_formed::is_well_formed;

// What headers and instances declare, over the tables of the application.
fn declared_over(alloc: Global, app: &Application, tables: &Tables) -> Result<Whole, Fault>
    ensures { AreTables (application_of app.now) tables.now → Follows (λ w. (tt, whole_of w)) result (modules.all_declared (application_of app.now) modules.nothing) }
{
    let mut whole = nothing(alloc);
    let done = all_declared(alloc, app, tables, &mut whole);
    let (whole, _) = beside(whole, done)?;
    Ok(whole)
}

fn declared(alloc: Global, app: &Application) -> Result<Whole, Fault>
    ensures { Follows (λ w. (tt, whole_of w)) result (modules.all_declared (application_of app.now) modules.nothing) }
{
    let tables = tables_of(alloc, app)?;
    declared_over(alloc, app, &tables)
}

// The test of programs passes what elaboration gives; that it does is tested, and one that it refused would find no memory here.
fn well_formed(alloc: Global, p: Program) -> Result<Program, Fault>
    ensures program { IfOk result (λ q. program_of q ≡ program_of p) }
    ensures formed { IfOk result (λ q. IsWellFormed (program_of q)) }
    ensures refused { IfErr result (λ e. e ≡ Fault.NoMemory) }
{
    if is_well_formed(alloc, &p) {
        Ok(p)
    } else {
        Err(Fault::NoMemory)
    }
}

/// The wired program of an application, which is well formed, or the first refusal in the order of reading: headers, then the instances of
/// modules, then the limits of the whole. Time and memory grow with the declarations of headers and instances. Want of memory may come
/// instead.
#[tactic(auto, using(crate::proofs::Ends::ends))]
pub fn wired(alloc: Global, app: &Application) -> Result<Program, Fault>
    ensures program { Follows program_of result (spec.wired (application_of app.now)) }
    ensures formed { IfOk result (λ p. IsWellFormed (program_of p)) }
{
    let p = program(alloc, app, declared(alloc, app)?)?;
    well_formed(alloc, p)
}
