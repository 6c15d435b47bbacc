//! A search in breadth from all roots.

ghost use Rattle.std.specs.Prelude.{◌≡◌, IfOk, None, length, replicate};
ghost use Rattle.call_graph.specs.Graph.{row_at};
ghost use Rattle.least_paths.specs.Ascending.{IsArranged};
ghost use Rattle.least_paths.specs.Searched.{IsSearch};
ghost use Rattle.least_paths.specs.Visits as visits;

use crate::ways::{Search, Way};
use call_graph::row;
use nm_base::{List, NoMemory};
use std::alloc::Global;
use std::collections::VecDeque;

/// Searches for all bodies to which chains of calls lead from the roots; the table has the bodies that each body calls. Each
/// body is looked at once, and each of its calls once, in the order of their numbers.
pub fn search(alloc: Global, table: &[List<u32>], roots: &[u32]) -> Result<Search, NoMemory>
    ensures { IfOk result (λ s. IsSearch roots.now (row_at table.now) (length table.now) s) }
{
    let mut ways = none_found(alloc, table.len())?;
    let mut waiting = VecDeque::new(alloc);
    let mut order = Vec::new(alloc);
    let first = arranged(alloc, roots)?;
    visit(&mut ways, &mut waiting, Way::Root, &first)?;
    while let Some(f) = waiting.pop_front() {
        order.push(f)?;
        let callees = arranged(alloc, row(table, f))?;
        visit(&mut ways, &mut waiting, Way::CalledBy(f), &callees)?;
    }
    Ok(Search { order, ways })
}

fn none_found(alloc: Global, count: usize) -> Result<Vec<Option<Way>>, NoMemory>
    ensures { IfOk result (λ v. v.items ≡ replicate count None) }
{
    Ok(vec![in alloc; None; count]?)
}

// The same bodies in the order of their numbers.
fn arranged(alloc: Global, bodies: &[u32]) -> Result<Vec<u32>, NoMemory>
    ensures { IfOk result (λ v. IsArranged bodies.now v.items) }
{
    let mut list = copied(alloc, bodies)?;
    list.sort_unstable();
    Ok(list)
}

fn copied(alloc: Global, bodies: &[u32]) -> Result<Vec<u32>, NoMemory>
    ensures { IfOk result (λ v. v.items ≡ bodies.now) }
{
    let mut list = Vec::new(alloc);
    list.extend_from_slice(bodies)?;
    Ok(list)
}

// Each of these bodies that was not found waits from now on.
#[tactic(auto, using(crate::proofs::Steps::steps))]
fn visit(
    ways: &mut Vec<Option<Way>>,
    waiting: &mut VecDeque<u32>,
    way: Way,
    bodies: &[u32],
) -> Result<(), NoMemory>
    ensures ways { IfOk result (λ _. ways.new.items ≡ visits.all_ways way ways.old.items bodies.now) }
    ensures waiting { IfOk result (λ _. waiting.new.items ≡ visits.all_waiting way ways.old.items waiting.old.items bodies.now) }
{
    for body in bodies {
        find(ways, waiting, way, *body)?;
    }
    Ok(())
}

fn find(
    ways: &mut Vec<Option<Way>>,
    waiting: &mut VecDeque<u32>,
    way: Way,
    f: u32,
) -> Result<(), NoMemory>
    ensures ways { IfOk result (λ _. ways.new.items ≡ visits.with_way ways.old.items f way) }
    ensures waiting { IfOk result (λ _. waiting.new.items ≡ visits.waiting_with ways.old.items waiting.old.items f) }
{
    if is_new(ways, f) {
        ways[f as usize] = Some(way);
        waiting.push_back(f)?;
    }
    Ok(())
}

// Whether there is such a body and it is not found.
fn is_new(ways: &[Option<Way>], f: u32) -> bool
    ensures { result ≡ visits.is_new ways.now f }
{
    match ways.get(f as usize) {
        Some(way) => way.is_none(),
        None => false,
    }
}
