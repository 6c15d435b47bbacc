//! Which bodies chains of calls reach.

ghost use Rattle.std.specs.Prelude.{◌≡◌, IfOk, false, length, not, replicate, true, slice_index_or, slice_set};
ghost use Rattle.call_graph.specs.Graph.{AreReached, row_at};
ghost use Rattle.call_graph.specs.Reach.{all_marked, all_waiting, waiting_with};

use crate::table::row;
use nm_base::{List, NoMemory};
use std::alloc::Global;

/// Marks the bodies to which chains of calls lead from the roots; the table has the bodies that each body calls.
pub fn reach(alloc: Global, table: &[List<u32>], roots: &[u32]) -> Result<Vec<bool>, NoMemory>
    ensures { IfOk result (λ marks. AreReached (length table.now) roots.now (row_at table.now) marks.items) }
{
    let mut marks = unmarked(alloc, table.len())?;
    let mut waiting = Vec::new(alloc);
    mark_all(&mut marks, &mut waiting, roots)?;
    while let Some(f) = waiting.pop() {
        mark_all(&mut marks, &mut waiting, row(table, f))?;
    }
    Ok(marks)
}

/// So many bodies, none of them marked.
pub(crate) fn unmarked(alloc: Global, count: usize) -> Result<Vec<bool>, NoMemory>
    ensures { IfOk result (λ v. v.items ≡ replicate count false) }
{
    Ok(vec![in alloc; false; count]?)
}

#[tactic(auto, using(crate::proofs::Reaching::steps))]
fn mark_all(marks: &mut Vec<bool>, waiting: &mut Vec<u32>, bodies: &[u32]) -> Result<(), NoMemory>
    ensures marks { IfOk result (λ _. marks.new.items ≡ all_marked marks.old.items bodies.now) }
    ensures waiting { IfOk result (λ _. waiting.new.items ≡ all_waiting marks.old.items waiting.old.items bodies.now) }
{
    for body in bodies {
        mark(marks, waiting, *body)?;
    }
    Ok(())
}

// A body that was not marked waits from now on.
fn mark(marks: &mut Vec<bool>, waiting: &mut Vec<u32>, f: u32) -> Result<(), NoMemory>
    ensures marks { IfOk result (λ _. marks.new.items ≡ slice_set marks.old.items f true) }
    ensures waiting { IfOk result (λ _. waiting.new.items ≡ waiting_with marks.old.items waiting.old.items f) }
{
    if is_new(marks, f) {
        marks[f as usize] = true;
        waiting.push(f)?;
    }
    Ok(())
}

/// Whether there is such a body and it is not marked.
pub(crate) fn is_new(marks: &[bool], f: u32) -> bool
    ensures { result ≡ not (slice_index_or marks.now f true) }
{
    match marks.get(f as usize) {
        Some(is_marked) => !*is_marked,
        None => false,
    }
}
