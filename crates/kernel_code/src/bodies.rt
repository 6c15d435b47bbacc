//! All bodies of the kernel's program.

ghost use Rattle.std.specs.Prelude.{◌≡◌, ◌∷◌, ◌++◌, [], IfOk, map};
ghost use Rattle.nesc_core.specs.View.{body_of};
ghost use Rattle.task_queue.specs.Kernel as own;

use crate::forms::grow;
use crate::pop::pop_body;
use crate::queue::queue_body;
use kernel_bodies::post_in_stmt;
use nesc_core::Body;
use nm_base::{List, NoMemory};
use std::alloc::Global;
use std::mem::replace;

fn post_in_body(alloc: Global, queue: u32, b: &mut Body) -> Result<(), NoMemory>
    ensures { IfOk result (λ _. body_of b.new ≡ own.posting_body queue (body_of b.old)) }
{
    post_in_stmt(alloc, queue, &mut b.code)
}

fn posting(alloc: Global, queue: u32, bodies: List<Body>) -> Result<List<Body>, NoMemory>
    ensures { IfOk result (λ r. map body_of r ≡ map (own.posting_body queue) (map body_of bodies)) }
{
    let mut items = bodies.into_vec();
    for b in items.iter_mut() {
        post_in_body(alloc, queue, b)?;
    }
    Ok(List::new(items))
}

fn post_in_bodies(alloc: Global, queue: u32, bodies: &mut List<Body>) -> Result<(), NoMemory>
    ensures { IfOk result (λ _. map body_of bodies.new ≡ map (own.posting_body queue) (map body_of bodies.old)) }
{
    let list = replace(bodies, List::new(Vec::new(alloc)));
    *bodies = posting(alloc, queue, list)?;
    Ok(())
}

// The two bodies behind those of the program.
fn push_own(alloc: Global, bytes: u32, bodies: &mut List<Body>) -> Result<(), NoMemory>
    ensures { IfOk result (λ _. map body_of bodies.new ≡ map body_of bodies.old ++ (own.queue_body bytes ∷ own.pop_body bytes ∷ [])) }
{
    grow(alloc, bodies, queue_body(alloc, bytes)?)?;
    grow(alloc, bodies, pop_body(alloc, bytes)?)?;
    Ok(())
}

/// The bodies of the kernel in the place of those of a program; where memory is wanting, they are left as they may be.
pub(crate) fn kernel_bodies(
    alloc: Global,
    queue: u32,
    bytes: u32,
    bodies: &mut List<Body>,
) -> Result<(), NoMemory>
    ensures { IfOk result (λ _. map body_of bodies.new ≡ map (own.posting_body queue) (map body_of bodies.old) ++ (own.queue_body bytes ∷ own.pop_body bytes ∷ [])) }
{
    post_in_bodies(alloc, queue, bodies)?;
    push_own(alloc, bytes, bodies)
}
