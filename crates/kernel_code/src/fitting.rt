//! Whether a program has a kernel.

ghost use Rattle.std.specs.Prelude.{◌≡◌, ◌≤◌, ◌<◌, ◌+◌, ◌^◌, true, false, length, IfOk, IfErr};
ghost use Rattle.nesc_core.specs.View.{program_of};
ghost use Rattle.nesc_core.specs.Weights.{objects_end, objects_start};
ghost use Rattle.task_queue.specs.Kernel.{Fits};
ghost use Rattle.kernel_code.specs.Making.{IsDue};

use crate::queued::NoKernel;
use crate::room::objects_end;
use nesc_core::Program;
use nm_base::{MAX_OBJECTS, MAX_TASKS, RAM_START};
use std::alloc::Global;

/// How many numbers there are of objects and bodies.
const NUMBERS: u64 = 1 << 32;

fn few_tasks(p: &Program) -> bool
    ensures held { result ≡ true → length (program_of p.now).tasks ≤ 254 }
    ensures missed { result ≡ false → 254 < length (program_of p.now).tasks }
{
    p.tasks.as_slice().len() <= MAX_TASKS as usize
}

fn few_objects(p: &Program) -> bool
    ensures held { result ≡ true → length (program_of p.now).objects < 2 ^ 32 }
    ensures missed { result ≡ false → 2 ^ 32 ≤ length (program_of p.now).objects }
{
    (p.objects.as_slice().len() as u64) < NUMBERS
}

fn few_bodies(p: &Program) -> bool
    ensures held { result ≡ true → length (program_of p.now).bodies + 1 < 2 ^ 32 }
    ensures missed { result ≡ false → 2 ^ 32 ≤ length (program_of p.now).bodies + 1 }
{
    (p.bodies.as_slice().len() as u64) < NUMBERS - 1
}

fn is_within(end: u32) -> bool
    ensures held { result ≡ true → end ≤ objects_start + 60000 }
    ensures missed { result ≡ false → objects_start + 60000 < end }
{
    end <= u32::from(RAM_START) + MAX_OBJECTS
}

/// Where the objects of a program end, where it has a kernel: at most 254 tasks, objects of at most 60,000 bytes, and numbers of 32 bits for
/// all objects and bodies.
pub(crate) fn fitting_end(alloc: Global, p: &Program) -> Result<u32, NoKernel>
    ensures fits { IfOk result (λ _. Fits (program_of p.now)) }
    ensures end { IfOk result (λ end. end ≡ objects_end (program_of p.now)) }
    ensures due { IfErr result (λ why. IsDue why (program_of p.now)) }
{
    if !few_tasks(p) {
        return Err(NoKernel::Tasks);
    }
    if !few_objects(p) {
        return Err(NoKernel::Objects);
    }
    if !few_bodies(p) {
        return Err(NoKernel::Bodies);
    }
    let end = objects_end(alloc, p)?;
    if !is_within(end) {
        return Err(NoKernel::Room);
    }
    Ok(end)
}
