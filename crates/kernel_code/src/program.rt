//! The kernel's program.

ghost use Rattle.std.specs.Prelude.{◌≡◌, ◌+◌, IfOk, IfErr, length};
ghost use Rattle.nesc_core.specs.View.{program_of};
ghost use Rattle.nesc_core.specs.Weights.{even, objects_end};
ghost use Rattle.task_queue.specs.Kernel as own;
ghost use Rattle.task_queue.specs.Kernel.{Fits, kernel_program};
ghost use Rattle.kernel_code.specs.Making.{IsDue, kernel_of};

use crate::bodies::kernel_bodies;
use crate::fitting::fitting_end;
use crate::object::push_bytes;
use crate::queued::{NoKernel, Queued};
use nesc_core::Program;
use nm_base::{NoMemory, beside};
use std::alloc::Global;

fn object_count(p: &Program) -> u32
    requires { Fits (program_of p.now) }
    ensures { result ≡ length (program_of p.now).objects }
{
    p.objects.as_slice().len() as u32
}

fn body_count(p: &Program) -> u32
    requires { Fits (program_of p.now) }
    ensures { result ≡ length (program_of p.now).bodies }
{
    p.bodies.as_slice().len() as u32
}

fn byte_count(p: &Program) -> u32
    requires { Fits (program_of p.now) }
    ensures { result ≡ length (program_of p.now).tasks + 2 }
{
    p.tasks.as_slice().len() as u32 + 2
}

// Where the bytes lie, which is the even address behind all objects.
fn bytes_address(alloc: Global, p: &Program) -> Result<u16, NoKernel>
    ensures fits { IfOk result (λ _. Fits (program_of p.now)) }
    ensures address { IfOk result (λ addr. addr ≡ even (objects_end (program_of p.now))) }
    ensures due { IfErr result (λ why. IsDue why (program_of p.now)) }
{
    let end = fitting_end(alloc, p)?;
    Ok((end + end % 2) as u16)
}

// The kernel in the place of the program.
fn change(alloc: Global, addr: u16, p: &mut Program) -> Result<(), NoMemory>
    requires fits { Fits (program_of p.old) }
    requires address { addr ≡ even (objects_end (program_of p.old)) }
    ensures { IfOk result (λ _. program_of p.new ≡ kernel_program (program_of p.old)) }
{
    let queue = body_count(p);
    let bytes = object_count(p);
    let count = byte_count(p);
    kernel_bodies(alloc, queue, bytes, &mut p.bodies)?;
    push_bytes(alloc, count, addr, &mut p.objects)?;
    Ok(())
}

// The same where the program has a kernel, and the number of its function that puts a task last.
fn make(alloc: Global, p: &mut Program) -> Result<u32, NoKernel>
    ensures fits { IfOk result (λ _. Fits (program_of p.old)) }
    ensures program { IfOk result (λ _. program_of p.new ≡ kernel_program (program_of p.old)) }
    ensures queue { IfOk result (λ queue. queue ≡ length (program_of p.old).bodies) }
    ensures due { IfErr result (λ why. IsDue why (program_of p.old)) }
{
    let addr = bytes_address(alloc, p)?;
    let queue = body_count(p);
    change(alloc, addr, p)?;
    Ok(queue)
}

/// The kernel of a program, in its place: each post is a call of `queue`, and `queue`, `pop` and the bytes' object stand behind the bodies and
/// objects of the program. Nothing is copied. Time grows with the nodes, and with the fields of all structs; where structs name higher ones, as
/// in no well-formed program, with these fields times the number of structs. Recurses as deep as the program's trees. Errors: the program is
/// past a limit, or memory is wanting; in both cases the program is gone. Own, after Gay et al. 2003, 3.1, and TEP 106.
#[tactic(auto, using(crate::proofs::Whole::numbered))]
pub fn kernel(alloc: Global, p: Program) -> Result<Queued, NoKernel>
    ensures made { IfOk result (λ k. kernel_of k ≡ own.kernel (program_of p)) }
    ensures fits { IfOk result (λ _. Fits (program_of p)) }
    ensures due { IfErr result (λ why. IsDue why (program_of p)) }
{
    let mut program = p;
    let made = make(alloc, &mut program);
    let (program, queue) = beside(program, made)?;
    Ok(Queued {
        program,
        queue,
        pop: queue + 1,
    })
}
