//! From the files of an application to its wired program.

ghost use Rattle.std.specs.Prelude.{◌≡◌, Some, Ok, Err, IfOk, IfErr};
ghost use Rattle.nm_base.specs.declared.fault.Fault.{Fault as FaultOf};
ghost use Rattle.nesc_core.specs.View.{program_of};
ghost use Rattle.nesc_core.specs.WellFormed.{IsWellFormed};
ghost use Rattle.wire_reading.specs.Order.{IsRefusal};
ghost use Rattle.wire_reading.specs.Told.{Told, Counts};
ghost use Rattle.wire_paths.specs.declared.wires.Way.TheVariants as way;
ghost use Rattle.wire_paths.specs.Wires.{wires_of};
ghost use Rattle.wire_loading.specs.declared.stopped.Stopped.{Stopped as StoppedOf};
ghost use Rattle.wire_loading.specs.Opened.{answer_of};
ghost use Rattle.nesc_elab.specs.Elaborates.{Elaborates};
ghost use Rattle.nesc_wiring.specs.Loads.{IsInside};
ghost use Rattle.nesc_programs.specs.Programs.{IsProgram, IsStopped};

use crate::application::Application;
use nesc_core::Program;
use nesc_elab::elaborate;
use nesc_wiring::{Wiring, inside, load};
use nm_base::{Fault, Files, Name};
use std::alloc::Global;
use unit_parsing::Grammar;
use wire_loading::Stopped;

// The program of an application that is wired.
fn elaborated(alloc: Global, w: &Wiring) -> Result<Program, Fault>
    requires calls { w.now.nets.calls.wires.items ≡ wires_of way.Calls w.now.links.pairs.items }
    requires signals { w.now.nets.signals.wires.items ≡ wires_of way.Signals w.now.links.pairs.items }
    ensures program { IfOk result (λ p. Elaborates w.now.units.items w.now.links.made.items w.now.links.pairs.items (Ok (program_of p))) }
    ensures formed { IfOk result (λ p. IsWellFormed (program_of p)) }
    ensures refused { (fault : FaultOf) → result ≡ Err fault → IsRefusal fault → Elaborates w.now.units.items w.now.links.made.items w.now.links.pairs.items (Err fault) }
    ensures inside { IfErr result IsInside }
{
    match elaborate(alloc, w.units.as_slice(), &w.links, &w.nets) {
        Ok(program) => Ok(program),
        Err(fault) => Err(inside(fault)),
    }
}

/// The wired program of the application `app`, from its file `app.nc` and what that needs; it is well formed. Refuses at the first phase that finds
/// something: reading, creation, wires, what instances lack, declarations and bodies, the limits of the program. A file that is missing, or that
/// cannot be read, is told as such. With the refusal come the files that were read by then, in which its place has the number of one.
#[tactic(auto, using(crate::proofs::Programs::applications))]
pub fn read_program<F: Files>(
    alloc: Global,
    files: &mut F,
    app: &Name,
) -> Result<Application, Stopped>
    ensures outside { Counts (answer_of result) (F.seen files.old) (F.seen files.new) }
    ensures formed { IfOk result (λ a. IsWellFormed (program_of a.program)) }
    ensures program { (told : Told) → (F.seen files.old).texts ≡ Some told → IfOk result (λ a. IsProgram told app.now (program_of a.program) a.reading) }
    ensures refused { (told : Told) → (F.seen files.old).texts ≡ Some told → (stopped : StoppedOf) → result ≡ Err stopped → IsRefusal stopped.fault → IsStopped told app.now stopped.fault stopped.reading }
{
    let wiring = load(alloc, files, Grammar, app)?;
    let found = elaborated(alloc, &wiring);
    let reading = wiring.reading;
    match found {
        Ok(program) => Ok(Application { program, reading }),
        Err(fault) => Err(Stopped { fault, reading }),
    }
}
