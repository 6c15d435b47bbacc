//! From a program with tasks to what layout is given.

ghost use Rattle.std.specs.Prelude.{◌≡◌, ◌≤◌, IfOk, length, true};
ghost use Rattle.nesc_core.specs.Calls.{HasNoCycle};
ghost use Rattle.nesc_core.specs.View.{program_of};
ghost use Rattle.nesc_core.specs.WellFormed.{IsWellFormed};
ghost use Rattle.task_queue.specs.Kernel as own;
ghost use Rattle.task_queue.specs.Kernel.{Fits};
ghost use Rattle.kernel_code.specs.Making.{kernel_of};
ghost use Rattle.lower_form.specs.Short.{IsShort};
ghost use Rattle.lean_pace.specs.Lean.{IsLean};
ghost use Rattle.program_builder.specs.Parts.{AreParts, ArePartsOf, HaveOwnBodies};

use crate::apart::have_own_bodies;
use crate::code::code_of;
use compilable_programs::is_compilable;
use image_builder::{are_countable, data_bytes, reset_place};
use kernel_code::{Queued, kernel};
use lower_form::is_short;
use msp_isa::CodeFn;
use nesc_core::Program;
use nm_base::NoMemory;
use std::alloc::Global;
use well_formed::{has_few_nodes, is_well_formed};

/// The code of an image, the place of the loop of tasks in it, and the bytes of data.
#[derive(Drop)]
pub(crate) struct Parts {
    pub code: Vec<CodeFn>,
    pub reset: u32,
    pub ram: u32,
}

// Whether a kernel is made of a program: no call is inlined, no switch has too many cases, and tasks have bodies of their own.
fn has_form(p: &Program) -> bool
    ensures lean { result ≡ true → IsLean (program_of p.now) }
    ensures apart { result ≡ true → HaveOwnBodies (program_of p.now).tasks }
{
    is_compilable(p) && have_own_bodies(p.tasks.as_slice())
}

// The kernel of a program. One that no program of elaboration is, past the limits of a kernel, is want of memory.
fn queued(alloc: Global, p: Program) -> Result<Queued, NoMemory>
    ensures made { IfOk result (λ k. kernel_of k ≡ own.kernel (program_of p)) }
    ensures fits { IfOk result (λ _. Fits (program_of p)) }
{
    match kernel(alloc, p) {
        Ok(k) => Ok(k),
        Err(_) => Err(NoMemory),
    }
}

// Whether a program is well formed and short.
fn can_be_lowered(alloc: Global, p: &Program) -> bool
    ensures well { result ≡ true → IsWellFormed (program_of p.now) }
    ensures short { result ≡ true → IsShort (program_of p.now) }
{
    if !has_few_nodes(p) {
        return false;
    }
    is_short(p) && is_well_formed(alloc, p)
}

// What layout is given of a kernel.
fn parts_of_kernel(alloc: Global, k: &Queued) -> Result<Parts, NoMemory>
    requires { length (program_of k.now.program).tasks ≤ 254 }
    ensures { IfOk result (λ x. AreParts (kernel_of k.now) x.code.items x.reset x.ram) }
{
    if !can_be_lowered(alloc, &k.program) {
        return Err(NoMemory);
    }
    let code = code_of(alloc, k)?;
    if !are_countable(&code) {
        return Err(NoMemory);
    }
    let ram = data_bytes(alloc, &k.program)?;
    let reset = reset_place(&code);
    Ok(Parts { code, reset, ram })
}

/// What layout is given of a program with tasks: the code of its kernel.
pub(crate) fn parts_of(alloc: Global, p: Program) -> Result<Parts, NoMemory>
    requires formed { IsWellFormed (program_of p) }
    requires no_cycle { HasNoCycle (program_of p) }
    ensures { IfOk result (λ x. ArePartsOf (program_of p) x.code.items x.reset x.ram) }
{
    if !has_form(&p) {
        return Err(NoMemory);
    }
    let k = queued(alloc, p)?;
    parts_of_kernel(alloc, &k)
}
