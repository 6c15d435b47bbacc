//! Programs that are refused for their calls.

ghost use Rattle.std.specs.Prelude.{◌≡◌, ◌==◌, ◌<◌, ◌^◌, ℕ, ◌∷◌, IfOk, MatchResult, false, length, map, option_map, slice_index_or};
ghost use Rattle.std.specs.List.{list_all, list_any};
ghost use Rattle.nesc_core.specs.Calls.{HasNoCycle};
ghost use Rattle.nesc_core.specs.View.{program_of};
ghost use Rattle.call_graph.specs.Graph.{AreReached, IsCounted, IsMarked, row_at};
ghost use Rattle.call_graph.specs.Paths.{IsIn, below, callees, handler_roots};
ghost use Rattle.call_graph.specs.Ranks as specs;
ghost use Rattle.call_graph.specs.Refusals as refusals;
ghost use Rattle.call_graph.specs.Search.{is_end_in};
ghost use Rattle.call_graph.specs.Uses.{uses};
ghost use Rattle.call_graph.specs.View.{use_of};
ghost use Rattle.call_graph.specs.Shortest.{best_of, chain_from, chain_if, shorter_of};

use crate::ranks::ranks_of;
use crate::search::least_path;
use crate::table::row;
use crate::uses::{Use, uses_in};
use nesc_core::Program;
use nm_base::{Fault, List, NoMemory, Path, Pos, Refusal};
use std::alloc::Global;

/// Refuses a program of which the calls have a cycle; the table has the bodies that each body calls.
pub(crate) fn refuse_cycle(alloc: Global, p: &Program, table: &[List<u32>]) -> Result<(), Fault>
    requires counted { IsCounted (program_of p.now) }
    requires table { row_at table.now ≡ callees (program_of p.now) }
    requires size { length table.now ≡ length (program_of p.now).bodies }
    ensures { MatchResult result (λ _. HasNoCycle (program_of p.now)) (λ e. refusals.IsDue (program_of p.now) e) }
{
    match find_cycle(alloc, table)? {
        None => Ok(()),
        Some(path) => match last_place(alloc, p, &path)? {
            None => Ok(()),
            Some(pos) => Err(Fault::Refused(Refusal::Recursion(pos, Path::new(path)))),
        },
    }
}

// The least cycle of calls; None where each body has a rank.
fn find_cycle(alloc: Global, table: &[List<u32>]) -> Result<Option<Vec<u32>>, NoMemory>
    requires small { length table.now < 2 ^ 32 }
    requires named { (f g : ℕ) → IsIn g (row_at table.now f) → g < length table.now }
    ensures { IfOk result (λ o. refusals.IsCycleOf table.now (option_map (λ v. v.items) o)) }
{
    let ranks = ranks_of(alloc, table)?;
    if all_some(&ranks) {
        return Ok(None);
    }
    let found = least_cycle(alloc, table)?;
    Ok(found)
}

fn all_some(ranks: &[Option<u32>]) -> bool
    ensures { result ≡ list_all specs.is_some ranks.now }
{
    ranks.iter().all(|rank| rank.is_some())
}

/// Refuses a program in which a handler reaches a command or event without `async`. The table has the bodies that each body
/// calls, and `is_async` marks those that handlers reach.
pub(crate) fn refuse_sync(
    alloc: Global,
    p: &Program,
    table: &[List<u32>],
    handlers: &[u32],
    is_async: &[bool],
) -> Result<(), Fault>
    requires counted { IsCounted (program_of p.now) }
    requires table { row_at table.now ≡ callees (program_of p.now) }
    requires size { length table.now ≡ length (program_of p.now).bodies }
    requires no_cycle { HasNoCycle (program_of p.now) }
    requires handlers { handlers.now ≡ handler_roots (program_of p.now) }
    requires marks { AreReached (length table.now) handlers.now (row_at table.now) is_async.now }
    ensures { MatchResult result (λ _. refusals.HasNoSyncPath (program_of p.now)) (λ e. refusals.IsDue (program_of p.now) e) }
{
    let syncs = syncs_of(alloc, p)?;
    if !any_both(&syncs, is_async) {
        return Ok(());
    }
    match least_sync(alloc, table, &syncs, handlers)? {
        None => Ok(()),
        Some(path) => match last_place(alloc, p, &path)? {
            None => Ok(()),
            Some(pos) => Err(Fault::Refused(Refusal::NotAsync(pos, Path::new(path)))),
        },
    }
}

// Marks the commands and events without `async`.
fn syncs_of(alloc: Global, p: &Program) -> Result<Vec<bool>, NoMemory>
    ensures { IfOk result (λ v. v.items ≡ map refusals.is_sync_body (program_of p.now).bodies) }
{
    let mut syncs = Vec::new(alloc);
    for body in p.bodies.as_slice() {
        syncs.push(body.is_item && !body.is_async)?;
    }
    Ok(syncs)
}

fn any_both(syncs: &[bool], is_async: &[bool]) -> bool
    ensures { result ≡ false → (f : ℕ) → IsMarked syncs.now f → IsMarked is_async.now f → ⊥ }
{
    for f in 0..syncs.len() {
        if is_marked(syncs, f) && is_marked(is_async, f) {
            return true;
        }
    }
    false
}

fn is_marked(marks: &[bool], f: usize) -> bool
    ensures { result ≡ slice_index_or marks.now f false }
{
    match marks.get(f) {
        Some(is_marked) => *is_marked,
        None => false,
    }
}

// The least chain of at least one call from a handler to one of the marked bodies.
#[tactic(auto, using(crate::proofs::Best::numbers))]
fn least_sync(
    alloc: Global,
    table: &[List<u32>],
    syncs: &[bool],
    handlers: &[u32],
) -> Result<Option<Vec<u32>>, NoMemory>
    requires ends { length syncs.now ≡ length table.now }
    requires small { length table.now < 2 ^ 32 }
    ensures { IfOk result (λ o. option_map (λ v. v.items) o ≡ best_of (λ f. chain_if (list_any (λ h. h == f) handlers.now) (chain_from table.now (is_end_in syncs.now) f)) (length table.now)) }
{
    let mut best = None;
    for f in 0..table.len() as u32 {
        let found = sync_from(alloc, table, syncs, handlers, f)?;
        best = shorter(best, found);
    }
    Ok(best)
}

// The same from body f, where it is a handler.
fn sync_from(
    alloc: Global,
    table: &[List<u32>],
    syncs: &[bool],
    handlers: &[u32],
    f: u32,
) -> Result<Option<Vec<u32>>, NoMemory>
    requires ends { length syncs.now ≡ length table.now }
    requires small { length table.now < 2 ^ 32 }
    ensures { IfOk result (λ o. option_map (λ v. v.items) o ≡ chain_if (list_any (λ h. h == f) handlers.now) (chain_from table.now (is_end_in syncs.now) f)) }
{
    if is_handler(handlers, f) {
        chain(alloc, table, syncs, f)
    } else {
        Ok(None)
    }
}

fn is_handler(handlers: &[u32], f: u32) -> bool
    ensures { result ≡ list_any (λ h. h == f) handlers.now }
{
    handlers.iter().any(|handler| *handler == f)
}

// The least cycle of calls.
#[tactic(auto, using(crate::proofs::Best::numbers))]
fn least_cycle(alloc: Global, table: &[List<u32>]) -> Result<Option<Vec<u32>>, NoMemory>
    requires { length table.now < 2 ^ 32 }
    ensures { IfOk result (λ o. option_map (λ v. v.items) o ≡ best_of (λ f. chain_from table.now (λ g. g == f) f) (length table.now)) }
{
    let mut best = None;
    for f in 0..table.len() as u32 {
        let found = cycle_from(alloc, table, f)?;
        best = shorter(best, found);
    }
    Ok(best)
}

// The least cycle of calls that begins with body f.
fn cycle_from(alloc: Global, table: &[List<u32>], f: u32) -> Result<Option<Vec<u32>>, NoMemory>
    requires small { length table.now < 2 ^ 32 }
    requires inside { f < length table.now }
    ensures { IfOk result (λ o. option_map (λ v. v.items) o ≡ chain_from table.now (λ g. g == f) f) }
{
    let ends = only(alloc, table.len(), f)?;
    chain(alloc, table, &ends, f)
}

// Marks body f alone.
#[tactic(auto, using(crate::proofs::Searching::numbers))]
fn only(alloc: Global, count: usize, f: u32) -> Result<Vec<bool>, NoMemory>
    ensures { IfOk result (λ v. v.items ≡ map (λ g. g == f) (below count)) }
{
    let mut marks = Vec::new(alloc);
    for g in 0..count {
        marks.push(g == f as usize)?;
    }
    Ok(marks)
}

// The least chain of at least one call from a body to an end.
fn chain(
    alloc: Global,
    table: &[List<u32>],
    ends: &[bool],
    f: u32,
) -> Result<Option<Vec<u32>>, NoMemory>
    requires ends { length ends.now ≡ length table.now }
    requires small { length table.now < 2 ^ 32 }
    ensures { IfOk result (λ o. option_map (λ v. v.items) o ≡ chain_from table.now (is_end_in ends.now) f) }
{
    match least_path(alloc, table, ends, row(table, f), table.len() as u32)? {
        None => Ok(None),
        Some(rest) => Ok(Some(with_first(alloc, f, &rest)?)),
    }
}

fn with_first(alloc: Global, f: u32, rest: &[u32]) -> Result<Vec<u32>, NoMemory>
    ensures { IfOk result (λ v. v.items ≡ f ∷ rest.now) }
{
    let mut path = Vec::new(alloc);
    path.push(f)?;
    path.extend_from_slice(rest)?;
    Ok(path)
}

fn shorter(best: Option<Vec<u32>>, other: Option<Vec<u32>>) -> Option<Vec<u32>>
    ensures { option_map (λ v. v.items) result ≡ shorter_of (option_map (λ v. v.items) best) (option_map (λ v. v.items) other) }
{
    match best {
        None => other,
        Some(best) => match other {
            None => Some(best),
            Some(other) => Some(if other.len() < best.len() {
                other
            } else {
                best
            }),
        },
    }
}

// The place of a chain's last call.
fn last_place(alloc: Global, p: &Program, path: &[u32]) -> Result<Option<Pos>, NoMemory>
    requires { IsCounted (program_of p.now) }
    ensures { IfOk result (λ o. o ≡ refusals.last_place (program_of p.now) path.now) }
{
    let Some((to, front)) = path.split_last() else {
        return Ok(None);
    };
    let Some((from, _)) = front.split_last() else {
        return Ok(None);
    };
    place_between(alloc, p, *from, *to)
}

fn place_between(alloc: Global, p: &Program, from: u32, to: u32) -> Result<Option<Pos>, NoMemory>
    requires { IsCounted (program_of p.now) }
    ensures { IfOk result (λ o. o ≡ refusals.call_place (uses (program_of p.now) from) to) }
{
    match p.bodies.as_slice().get(from as usize) {
        None => Ok(None),
        Some(body) => Ok(call_place(&uses_in(alloc, &body.code)?, to)),
    }
}

#[tactic(auto, using(crate::proofs::Graphs::steps))]
fn call_place(uses: &[Use], to: u32) -> Option<Pos>
    ensures { result ≡ refusals.call_place (map use_of uses.now) to }
{
    for u in uses {
        if let Use::Call { callee, pos, .. } = *u {
            if callee == to {
                return Some(pos);
            }
        }
    }
    None
}
