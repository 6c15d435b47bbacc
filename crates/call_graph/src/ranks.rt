//! Ranks of bodies, each above those of the bodies that it calls.

ghost use Rattle.std.specs.Prelude.{◌≡◌, ◌≤◌, ◌<◌, ◌^◌, IfOk, None, length, false, replicate};
ghost use Rattle.std.specs.List.{list_all};
ghost use Rattle.call_graph.specs.Graph.{row_at};
ghost use Rattle.call_graph.specs.Ranks as specs;
ghost use Rattle.call_graph.specs.Ranks.{AreRanks, AreSettled, AreStuck};

use crate::marks::{is_new, unmarked};
use crate::table::row;
use nm_base::{List, NoMemory};
use std::alloc::Global;

/// Gives ranks to bodies, as far as no cycle of calls hinders it; the table has the bodies that each body calls. In time
/// linear in the calls where there is no cycle.
pub(crate) fn ranks_of(alloc: Global, table: &[List<u32>]) -> Result<Vec<Option<u32>>, NoMemory>
    requires { length table.now < 2 ^ 32 }
    ensures { IfOk result (λ v. AreRanks table.now v.items) }
{
    let mut ranks = Ranks {
        of: unranked(alloc, table.len())?,
        count: 0,
    };
    settle_deep(alloc, table, &mut ranks)?;
    settle_all(table, &mut ranks);
    Ok(ranks.of)
}

fn unranked(alloc: Global, count: usize) -> Result<Vec<Option<u32>>, NoMemory>
    ensures { IfOk result (λ v. v.items ≡ replicate count None) }
{
    Ok(vec![in alloc; None; count]?)
}

// The rank of each body, and how many have one.
#[derive(Drop)]
struct Ranks {
    of: Vec<Option<u32>>,
    count: u32,
}

// What a search in depth does next with a body.
#[derive(Clone, Copy)]
enum Visit {
    Enter(u32),
    Leave(u32),
}

// Settles each body behind those that it calls, where there is no cycle.
fn settle_deep(alloc: Global, table: &[List<u32>], ranks: &mut Ranks) -> Result<(), NoMemory>
    requires small { length table.now < 2 ^ 32 }
    requires settled { AreSettled table.now ranks.old.of.items ranks.old.count }
    ensures { IfOk result (λ _. AreSettled table.now ranks.new.of.items ranks.new.count) }
{
    let mut entered = unmarked(alloc, table.len())?;
    let mut waiting = all_entered(alloc, table.len())?;
    for _ in 0..most_visits(table) {
        let Some(next) = waiting.pop() else {
            return Ok(());
        };
        make_visit(table, ranks, &mut entered, &mut waiting, next)?;
    }
    Ok(())
}

fn all_entered(alloc: Global, count: usize) -> Result<Vec<Visit>, NoMemory>
    requires { count < 2 ^ 32 }
{
    let mut waiting = Vec::new(alloc);
    for f in 0..count {
        waiting.push(Visit::Enter(f as u32))?;
    }
    Ok(waiting)
}

fn make_visit(
    table: &[List<u32>],
    ranks: &mut Ranks,
    entered: &mut Vec<bool>,
    waiting: &mut Vec<Visit>,
    next: Visit,
) -> Result<(), NoMemory>
    requires small { length table.now < 2 ^ 32 }
    requires settled { AreSettled table.now ranks.old.of.items ranks.old.count }
    ensures { AreSettled table.now ranks.new.of.items ranks.new.count }
{
    match next {
        Visit::Leave(f) => {
            settle(table, ranks, f);
            Ok(())
        }
        Visit::Enter(f) => enter(table, entered, waiting, f),
    }
}

// A body that is entered for the first time waits behind those that it calls.
fn enter(
    table: &[List<u32>],
    entered: &mut Vec<bool>,
    waiting: &mut Vec<Visit>,
    f: u32,
) -> Result<(), NoMemory> {
    if is_new(entered, f) {
        entered[f as usize] = true;
        wait_for(waiting, f, row(table, f))?;
    }
    Ok(())
}

// Each body is entered once and for each call of it, and left once.
fn most_visits(table: &[List<u32>]) -> usize {
    let mut visits = 0_usize;
    for bodies in table {
        visits = visits
            .saturating_add(2)
            .saturating_add(bodies.as_slice().len());
    }
    visits
}

fn wait_for(waiting: &mut Vec<Visit>, f: u32, callees: &[u32]) -> Result<(), NoMemory> {
    waiting.push(Visit::Leave(f))?;
    for callee in callees {
        waiting.push(Visit::Enter(*callee))?;
    }
    Ok(())
}

// Settles bodies until none can be settled.
fn settle_all(table: &[List<u32>], ranks: &mut Ranks)
    requires small { length table.now < 2 ^ 32 }
    requires settled { AreSettled table.now ranks.old.of.items ranks.old.count }
    ensures settled { AreSettled table.now ranks.new.of.items ranks.new.count }
    ensures stuck { AreStuck table.now ranks.new.of.items }
{
    loop {
        let before = ranks.count;
        settle_each(table, ranks);
        if ranks.count == before {
            return;
        }
    }
}

fn settle_each(table: &[List<u32>], ranks: &mut Ranks)
    requires small { length table.now < 2 ^ 32 }
    requires settled { AreSettled table.now ranks.old.of.items ranks.old.count }
    ensures settled { AreSettled table.now ranks.new.of.items ranks.new.count }
    ensures grown { ranks.old.count ≤ ranks.new.count }
    ensures stuck { ranks.new.count ≡ ranks.old.count → AreStuck table.now ranks.new.of.items }
{
    for f in 0..table.len() {
        settle(table, ranks, f as u32);
    }
}

// Gives the next rank to a body that has none, where all its callees have one.
fn settle(table: &[List<u32>], ranks: &mut Ranks, f: u32)
    requires small { length table.now < 2 ^ 32 }
    requires settled { AreSettled table.now ranks.old.of.items ranks.old.count }
    ensures settled { AreSettled table.now ranks.new.of.items ranks.new.count }
    ensures grown { ranks.old.count ≤ ranks.new.count }
    ensures still { ranks.new.count ≡ ranks.old.count → (ranks.new.of.items ≡ ranks.old.of.items) × (specs.can_settle table.now ranks.old.of.items f ≡ false) }
{
    if can_settle(table, &ranks.of, f) {
        ranks.of[f as usize] = Some(ranks.count);
        ranks.count += 1;
    }
}

fn can_settle(table: &[List<u32>], ranks: &[Option<u32>], f: u32) -> bool
    ensures { result ≡ specs.can_settle table.now ranks.now f }
{
    is_free(ranks, f) && all_ranked(ranks, row(table, f))
}

fn is_free(ranks: &[Option<u32>], f: u32) -> bool
    ensures { result ≡ specs.is_free ranks.now f }
{
    match ranks.get(f as usize) {
        Some(rank) => rank.is_none(),
        None => false,
    }
}

fn all_ranked(ranks: &[Option<u32>], bodies: &[u32]) -> bool
    ensures { result ≡ list_all (specs.is_ranked ranks.now) bodies.now }
{
    bodies.iter().all(|body| is_ranked(ranks, *body))
}

fn is_ranked(ranks: &[Option<u32>], f: u32) -> bool
    ensures { result ≡ specs.is_ranked ranks.now f }
{
    match ranks.get(f as usize) {
        Some(rank) => rank.is_some(),
        None => false,
    }
}
