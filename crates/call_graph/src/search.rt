//! The shortest chains of calls, and of these the least by body numbers.

ghost use Rattle.std.specs.Prelude.{◌≡◌, ◌+◌, ◌<◌, ◌^◌, ℕ, IfOk, length, map, true, false, option_map};
ghost use Rattle.std.specs.List.{list_any};
ghost use Rattle.call_graph.specs.Graph.{row_at};
ghost use Rattle.call_graph.specs.Least as least;
ghost use Rattle.call_graph.specs.Least.{can, path_of};
ghost use Rattle.call_graph.specs.Ranks.{rank_of};
ghost use Rattle.call_graph.specs.Search.{AreFar, at_end, far_next, further, is_at, is_end_in};

use crate::table::row;
use nm_base::{List, NoMemory};
use std::alloc::Global;

/// The shortest chain of calls of fewer than `bound` calls from one of the roots to an end, and of these the least by body
/// numbers; None where there is none. The table has the bodies that each body calls. Each call more costs a look at all calls.
pub fn least_path(
    alloc: Global,
    table: &[List<u32>],
    ends: &[bool],
    roots: &[u32],
    bound: u32,
) -> Result<Option<Vec<u32>>, NoMemory>
    requires ends { length ends.now ≡ length table.now }
    requires small { length table.now < 2 ^ 32 }
    ensures { IfOk result (λ found. option_map (λ v. v.items) found ≡ least.least_path (row_at table.now) (is_end_in ends.now) roots.now bound) }
{
    let mut far = far_at_first(alloc, ends)?;
    for calls in 0..bound {
        if any_at(&far, roots, calls) {
            return Ok(Some(path(alloc, table, ends, &far, roots, calls)?));
        }
        far = far_behind(alloc, table, &far, calls)?;
    }
    Ok(None)
}

fn far_at_first(alloc: Global, ends: &[bool]) -> Result<Vec<Option<u32>>, NoMemory>
    ensures { IfOk result (λ far. far.items ≡ map at_end ends.now) }
{
    let mut far = Vec::new(alloc);
    for is_end in ends {
        far.push(if *is_end { Some(0) } else { None })?;
    }
    Ok(far)
}

// One call more.
#[tactic(auto, using(crate::proofs::Searching::numbers))]
fn far_behind(
    alloc: Global,
    table: &[List<u32>],
    far: &[Option<u32>],
    calls: u32,
) -> Result<Vec<Option<u32>>, NoMemory>
    requires calls { calls + 1 < 2 ^ 32 }
    requires small { length table.now < 2 ^ 32 }
    ensures { IfOk result (λ v. v.items ≡ far_next table.now far.now calls) }
{
    let mut next = Vec::new(alloc);
    for f in 0..table.len() {
        next.push(far_of(table, far, calls, f as u32))?;
    }
    Ok(next)
}

fn far_of(table: &[List<u32>], far: &[Option<u32>], calls: u32, f: u32) -> Option<u32>
    requires calls { calls + 1 < 2 ^ 32 }
    ensures { result ≡ further table.now far.now calls f (rank_of far.now f) }
{
    match distance(far, f) {
        Some(calls) => Some(calls),
        None => {
            if any_at(far, row(table, f), calls) {
                Some(calls + 1)
            } else {
                None
            }
        }
    }
}

fn distance(far: &[Option<u32>], f: u32) -> Option<u32>
    ensures { result ≡ rank_of far.now f }
{
    match far.get(f as usize) {
        Some(calls) => *calls,
        None => None,
    }
}

fn is_so_far(far: &[Option<u32>], f: u32, calls: u32) -> bool
    ensures { result ≡ is_at calls (rank_of far.now f) }
{
    match distance(far, f) {
        Some(have) => have == calls,
        None => false,
    }
}

fn any_at(far: &[Option<u32>], bodies: &[u32], calls: u32) -> bool
    ensures { result ≡ list_any (λ g. is_at calls (rank_of far.now g)) bodies.now }
{
    bodies.iter().any(|body| is_so_far(far, *body, calls))
}

// The least of these bodies that is so far away.
fn least_at(far: &[Option<u32>], bodies: &[u32], calls: u32) -> Option<u32>
    ensures { result ≡ least.least (λ g. is_at calls (rank_of far.now g)) bodies.now }
{
    let mut least = None;
    for body in bodies {
        if is_so_far(far, *body, calls) {
            least = Some(smaller(*body, least));
        }
    }
    least
}

fn smaller(body: u32, other: Option<u32>) -> u32
    ensures { result ≡ least.at_most body other }
{
    match other {
        None => body,
        Some(other) => body.min(other),
    }
}

// From the least root on always to the least body from which the rest can be gone.
fn path(
    alloc: Global,
    table: &[List<u32>],
    ends: &[bool],
    far: &[Option<u32>],
    roots: &[u32],
    calls: u32,
) -> Result<Vec<u32>, NoMemory>
    requires ends { length ends.now ≡ length table.now }
    requires far { AreFar table.now ends.now far.now calls }
    requires first { (m : ℕ) → m < calls → list_any (can (row_at table.now) (is_end_in ends.now) m) roots.now ≡ false }
    requires there { list_any (can (row_at table.now) (is_end_in ends.now) calls) roots.now ≡ true }
    ensures { IfOk result (λ v. v.items ≡ path_of (row_at table.now) (is_end_in ends.now) roots.now calls) }
{
    let mut bodies = Vec::new(alloc);
    let mut from = roots;
    let mut left = calls;
    while let Some(body) = least_at(far, from, left) {
        bodies.push(body)?;
        if left == 0 {
            return Ok(bodies);
        }
        left -= 1;
        from = row(table, body);
    }
    Ok(bodies)
}
