//! The graph of a program's calls.

ghost use Rattle.std.specs.Prelude.{◌≡◌, ◌++◌, IfOk, IfErr, map};
ghost use Rattle.std.specs.List.{flat_map};
ghost use Rattle.nesc_core.specs.View.{program_of};
ghost use Rattle.call_graph.specs.Graph.{IsCounted, IsGraph, call_of, calls_of};
ghost use Rattle.call_graph.specs.Paths.{base_roots, handler_roots};
ghost use Rattle.call_graph.specs.Refusals.{HasNoSyncPath, IsDue};
ghost use Rattle.call_graph.specs.View.{use_of};

use crate::edges::{Call, CallGraph};
use crate::marks::reach;
use crate::refusals::{refuse_cycle, refuse_sync};
use crate::table::callees;
use crate::uses::{Use, uses_in};
use nesc_core::Program;
use nm_base::{Fault, NoMemory};
use std::alloc::Global;

/// The graph of a program's calls. A program of which the calls have a cycle is refused with the least cycle, and one in
/// which a handler reaches a command or event without `async` with the least chain to one.
pub fn graph(alloc: Global, p: &Program) -> Result<CallGraph, Fault>
    requires { IsCounted (program_of p.now) }
    ensures graph { IfOk result (λ g. IsGraph (program_of p.now) g) }
    ensures no_sync { IfOk result (λ _. HasNoSyncPath (program_of p.now)) }
    ensures refused { IfErr result (λ e. IsDue (program_of p.now) e) }
{
    let all = callees(alloc, p, false)?;
    refuse_cycle(alloc, p, &all)?;
    let handlers = handler_bodies(alloc, p)?;
    let is_async = reach(alloc, &all, &handlers)?;
    refuse_sync(alloc, p, &all, &handlers, &is_async)?;
    let bare = reach(alloc, &callees(alloc, p, true)?, &base_bodies(alloc, p)?)?;
    Ok(CallGraph {
        calls: calls(alloc, p)?,
        is_async,
        bare,
    })
}

fn handler_bodies(alloc: Global, p: &Program) -> Result<Vec<u32>, NoMemory>
    ensures { IfOk result (λ v. v.items ≡ handler_roots (program_of p.now)) }
{
    let mut bodies = Vec::new(alloc);
    for handler in p.handlers.as_slice() {
        bodies.push(handler.1)?;
    }
    Ok(bodies)
}

fn base_bodies(alloc: Global, p: &Program) -> Result<Vec<u32>, NoMemory>
    ensures { IfOk result (λ v. v.items ≡ base_roots (program_of p.now)) }
{
    let mut bodies = Vec::new(alloc);
    bodies.push(p.boot)?;
    bodies.extend_from_slice(p.tasks.as_slice())?;
    Ok(bodies)
}

// The calls of all bodies.
fn calls(alloc: Global, p: &Program) -> Result<Vec<Call>, NoMemory>
    requires { IsCounted (program_of p.now) }
    ensures { IfOk result (λ v. v.items ≡ calls_of (program_of p.now)) }
{
    let mut calls = Vec::new(alloc);
    let bodies = p.bodies.as_slice();
    for f in 0..bodies.len() {
        let uses = uses_in(alloc, &bodies[f].code)?;
        push_calls(&mut calls, f as u32, &uses)?;
    }
    Ok(calls)
}

#[tactic(auto, using(crate::proofs::Graphs::steps))]
fn push_calls(calls: &mut Vec<Call>, from: u32, uses: &[Use]) -> Result<(), NoMemory>
    ensures { IfOk result (λ _. calls.new.items ≡ calls.old.items ++ flat_map (call_of from) (map use_of uses.now)) }
{
    for u in uses {
        if let Use::Call {
            is_inside,
            callee,
            pos,
            ..
        } = *u
        {
            calls.push(Call {
                from,
                to: callee,
                pos,
                atomic: is_inside,
            })?;
        }
    }
    Ok(())
}
