//! The wired program: structs, objects with their addresses, bodies, tasks, handlers and warnings.

ghost use Rattle.std.specs.Prelude.{◌≡◌, IfOk, Ok, length, map, nat_le, true};
ghost use Rattle.elab_making.specs.View.{whole_of};
ghost use Rattle.elab_meaning.specs.Answers.{Follows};
ghost use Rattle.elab_meaning.specs.View.{struct_of};
ghost use Rattle.elab_program.specs.Parts as parts;
ghost use Rattle.elab_targets.specs.View.{application_of};
ghost use Rattle.nesc_core.specs.View as view;
ghost use Rattle.nesc_core.specs.View.{field_of, object_of, program_of};
ghost use Rattle.nesc_types.specs.Addresses.{taken};
ghost use Rattle.nm_base.specs.declared.limit.TheConstants.{MAX_OBJECTS};
ghost use Rattle.program_meaning.specs.Program as spec;
ghost use Rattle.program_meaning.specs.Walk.{fields_of};

use crate::bodies::{all_bodies, boot_number};
use elab_making::Whole;
use elab_meaning::Struct;
use elab_objects::{limited, objects_of};
use elab_targets::{Application, tasks_of};
use nesc_core::{Field, Object, Program, Structs};
use nm_base::{Fault, List, NoMemory, beside};
use std::alloc::Global;
use std::mem::replace;

// ---- structs and objects

fn fields(x: Struct) -> List<Field>
    ensures { map field_of result ≡ (struct_of x).fields }
{
    List::new(x.fields)
}

fn structs_of(alloc: Global, found: Vec<Struct>) -> Result<Structs, NoMemory>
    ensures { IfOk result (λ s. view.structs_of s ≡ fields_of (map struct_of found.items)) }
{
    let mut structs = Vec::new(alloc);
    for x in found {
        structs.push(fields(x))?;
    }
    Ok(Structs {
        structs: List::new(structs),
    })
}

// The structs, which are taken.
fn all_structs(alloc: Global, whole: &mut Whole) -> Result<Structs, NoMemory>
    ensures structs { IfOk result (λ s. view.structs_of s ≡ fields_of (whole_of whole.old).work.structs) }
    ensures left { whole_of whole.new ≡ parts.without_structs (whole_of whole.old) }
{
    structs_of(alloc, replace(&mut whole.work.structs, Vec::new(alloc)))
}

// The objects of variables of these sizes, which are taken.
fn all_objects(alloc: Global, whole: &mut Whole, sizes: &[u32]) -> Result<List<Object>, NoMemory>
    requires { nat_le (taken sizes.now) MAX_OBJECTS ≡ true }
    ensures objects { IfOk result (λ v. map object_of v ≡ parts.objects_of sizes.now (whole_of whole.old)) }
    ensures left { whole_of whole.new ≡ parts.without_variables (whole_of whole.old) }
{
    let variables = replace(&mut whole.variables, Vec::new(alloc));
    let objects = objects_of(alloc, sizes, whole.work.taken.as_slice(), variables)?;
    Ok(List::new(objects))
}

// ---- the whole

// The sizes of the variables, within the limits.
fn within_limits(alloc: Global, whole: &Whole, tasks: usize) -> Result<Vec<u32>, Fault>
    ensures follows { Follows (λ v. v.items) result (parts.within_limits tasks (whole_of whole.now)) }
    ensures room { IfOk result (λ v. nat_le (taken v.items) MAX_OBJECTS ≡ true) }
{
    limited(
        alloc,
        whole.work.structs.as_slice(),
        whole.boot,
        whole.bodies.as_slice(),
        tasks,
        whole.variables.as_slice(),
    )
}

// The structs and the objects of variables of these sizes, which are taken.
fn objects_and_structs(
    alloc: Global,
    whole: &mut Whole,
    sizes: &[u32],
) -> Result<(List<Object>, Structs), NoMemory>
    requires { nat_le (taken sizes.now) MAX_OBJECTS ≡ true }
    ensures objects { IfOk result (λ d. map object_of d.0 ≡ parts.objects_of sizes.now (whole_of whole.old)) }
    ensures structs { IfOk result (λ d. view.structs_of d.1 ≡ fields_of (whole_of whole.old).work.structs) }
    ensures left { IfOk result (λ d. whole_of whole.new ≡ parts.without_structs (parts.without_variables (whole_of whole.old))) }
{
    let objects = all_objects(alloc, whole, sizes)?;
    beside(objects, all_structs(alloc, whole))
}

// The program, of which structs, objects and tasks are made.
fn rest(structs: Structs, objects: List<Object>, tasks: Vec<u32>, whole: Whole) -> Program
    ensures { program_of result ≡ parts.rest (view.structs_of structs) (map object_of objects) tasks.items (whole_of whole) }
{
    Program {
        structs,
        objects,
        bodies: List::new(whole.bodies),
        tasks: List::new(tasks),
        handlers: List::new(whole.handlers),
        boot: boot_number(whole.boot),
        warnings: List::new(whole.warnings),
    }
}

// The program of a whole with all bodies, whose variables have these sizes.
fn program_by(
    alloc: Global,
    tasks: Vec<u32>,
    sizes: &[u32],
    whole: Whole,
) -> Result<Program, NoMemory>
    requires { nat_le (taken sizes.now) MAX_OBJECTS ≡ true }
    ensures { IfOk result (λ p. program_of p ≡ parts.program_by tasks.items sizes.now (whole_of whole)) }
{
    let mut whole = whole;
    let made = objects_and_structs(alloc, &mut whole, sizes);
    let ((whole, tasks), (objects, structs)) = beside((whole, tasks), made)?;
    Ok(rest(structs, objects, tasks, whole))
}

// The same where the limits hold.
#[tactic(auto, using(crate::proofs::Limits::sized))]
fn sized_program(alloc: Global, tasks: Vec<u32>, whole: Whole) -> Result<Program, Fault>
    ensures { Follows program_of result (parts.sized_program tasks.items (whole_of whole) (parts.within_limits (length tasks.items) (whole_of whole))) }
{
    let sizes = within_limits(alloc, &whole, tasks.len());
    let ((whole, tasks), sizes) = beside((whole, tasks), sizes)?;
    Ok(program_by(alloc, tasks, &sizes, whole)?)
}

// The program with these tasks.
fn with_tasks(alloc: Global, tasks: Vec<u32>, whole: Whole) -> Result<Program, Fault>
    ensures { Follows program_of result (parts.program_of_all tasks.items (whole_of whole)) }
{
    let mut whole = whole;
    let finished = all_bodies(alloc, &mut whole);
    let ((whole, tasks), _) = beside((whole, tasks), finished)?;
    sized_program(alloc, tasks, whole)
}

/// The program of what was declared, where its limits hold. Errors: BadType at the boot function's name where its frame, with the locals of
/// initial values, is too large; Limit(Nodes), Limit(Tasks) or Limit(Objects) with the first number past the limit.
pub fn program(alloc: Global, app: &Application, whole: Whole) -> Result<Program, Fault>
    ensures { Follows program_of result (spec.ended (application_of app.now) (Ok (tt, whole_of whole))) }
{
    let (whole, tasks) = beside(whole, tasks_of(alloc, app))?;
    with_tasks(alloc, tasks, whole)
}
