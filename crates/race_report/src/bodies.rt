//! The bodies of a program, each looked at once.

ghost use Rattle.std.specs.Prelude.{◌≡◌, ◌<◌, ◌≤◌, ◌^◌, [], IfOk, false, length, map, slice_index_or, true};
ghost use Rattle.nesc_core.specs.Size.{AreSized};
ghost use Rattle.nesc_core.specs.View.{program_of, structs_of};
ghost use Rattle.call_graph.specs.Graph.{IsCounted, IsGraph};
ghost use Rattle.call_graph.specs.Paths as paths;
ghost use Rattle.call_graph.specs.Paths.{base_roots, handler_roots};
ghost use Rattle.call_graph.specs.View.{use_of};
ghost use Rattle.least_paths.specs.Searched.{IsSearch};
ghost use Rattle.race_report.specs.Known.{IsKnown, body_uses};

use crate::sources::Sources;
use crate::touched::first_bodies;
use call_graph::{CallGraph, Use, callees, uses_in};
use least_paths::{Search, search};
use nesc_core::Program;
use nm_base::{List, NoMemory};
use std::alloc::Global;

pub(crate) fn sources<'a>(
    alloc: Global,
    p: &'a Program,
    g: &'a CallGraph,
) -> Result<Sources<'a>, NoMemory>
    requires counted { IsCounted (program_of p.now) }
    requires graph { IsGraph (program_of p.now) g.now }
    requires sized { AreSized (structs_of p.now.structs) }
    requires objects { length p.now.objects < 2 ^ 32 }
    ensures known { IfOk result (λ s. IsKnown s) }
    ensures same { IfOk result (λ s. s.p.now ≡ p.now) }
{
    let uses = all_uses(alloc, p)?;
    let handlers = handler_search(alloc, p)?;
    let firsts = first_bodies(alloc, p, &uses, &handlers.order)?;
    let base = base_search(alloc, p)?;
    Ok(Sources {
        p,
        g,
        uses,
        handlers,
        base,
        firsts,
    })
}

fn handler_search(alloc: Global, p: &Program) -> Result<Search, NoMemory>
    requires { IsCounted (program_of p.now) }
    ensures { IfOk result (λ s. IsSearch (handler_roots (program_of p.now)) (paths.callees (program_of p.now)) (length (program_of p.now).bodies) s) }
{
    let table = callees(alloc, p, false)?;
    let roots = handler_bodies(alloc, p)?;
    search(alloc, &table, &roots)
}

fn base_search(alloc: Global, p: &Program) -> Result<Search, NoMemory>
    requires { IsCounted (program_of p.now) }
    ensures { IfOk result (λ s. IsSearch (base_roots (program_of p.now)) (paths.bare_callees (program_of p.now)) (length (program_of p.now).bodies) s) }
{
    let table = callees(alloc, p, true)?;
    let roots = base_bodies(alloc, p)?;
    search(alloc, &table, &roots)
}

fn all_uses(alloc: Global, p: &Program) -> Result<Vec<List<Use<'_>>>, NoMemory>
    requires { IsCounted (program_of p.now) }
    ensures { IfOk result (λ v. map (map use_of) v.items ≡ map body_uses (program_of p.now).bodies) }
{
    let mut uses = Vec::new(alloc);
    for body in p.bodies.as_slice() {
        let listed = uses_in(alloc, &body.code)?;
        uses.push(List::new(listed))?;
    }
    Ok(uses)
}

fn handler_bodies(alloc: Global, p: &Program) -> Result<Vec<u32>, NoMemory>
    ensures { IfOk result (λ v. v.items ≡ handler_roots (program_of p.now)) }
{
    let mut bodies = Vec::new(alloc);
    for handler in p.handlers.as_slice() {
        bodies.push(handler.1)?;
    }
    Ok(bodies)
}

fn base_bodies(alloc: Global, p: &Program) -> Result<Vec<u32>, NoMemory>
    ensures { IfOk result (λ v. v.items ≡ base_roots (program_of p.now)) }
{
    let mut bodies = Vec::new(alloc);
    bodies.push(p.boot)?;
    bodies.extend_from_slice(p.tasks.as_slice())?;
    Ok(bodies)
}

/// Whether there is no body `f`.
pub(crate) fn is_past(all: &[List<Use>], f: u32) -> bool
    ensures past { result ≡ true → length all.now ≤ f }
    ensures inside { result ≡ false → f < length all.now }
{
    all.len() <= f as usize
}

/// The accesses and calls of body `f`.
pub(crate) fn uses_at<'u, 'a>(all: &'u [List<Use<'a>>], f: u32) -> &'u [Use<'a>]
    requires { f < length all.now }
    ensures { result.now ≡ slice_index_or all.now f [] }
{
    all[f as usize].as_slice()
}
