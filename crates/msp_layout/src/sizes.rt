//! How many bytes items take, and which jumps need the longer form.

ghost use Rattle.std.specs.Prelude.{◌≡◌, ℕ, ◌+◌, ◌<◌, ◌≤◌, ◌^◌, IfOk, List, length, map, sum, true, false, slice_index};
ghost use Rattle.std.specs.List.{AllByRecursion};
ghost use Rattle.msp_layout.specs.Sizes.{long_bytes};
ghost use Rattle.msp_layout.specs.Rounds.{IsWrittenItem, short_bytes, reaches, widened, AreTargets, ArePlaces, AreWidened};

use msp_isa::{Cond, Item, encode};
use nm_base::NoMemory;
use std::alloc::Global;

/// The bytes of a word, and of a call and of an address in a register.
const WORD_BYTES: u32 = 2;

const CALL_BYTES: u32 = 4;

/// How far a jump of one word leads forth and back, in bytes from its own place.
const REACH: u32 = 1024;

// The bytes of the longer form: a MOV to PC, behind what goes around it.
fn long_bytes(condition: Cond) -> u32
    ensures { result ≡ long_bytes condition }
{
    match condition {
        Cond::Jmp => 4,
        Cond::Jn => 8,
        _ => 6,
    }
}

// The least bytes of an item.
fn short_bytes(item: Item) -> u32
    requires { IsWrittenItem item }
    ensures size { result ≡ short_bytes item }
{
    match item {
        Item::Is(instr) => WORD_BYTES * encode(&instr).len as u32,
        Item::Label(_) => 0,
        Item::Jump(..) => WORD_BYTES,
        Item::CallFn(_) | Item::AddrOf(..) => CALL_BYTES,
    }
}

/// The least bytes of each item.
pub(crate) fn short_sizes(alloc: Global, items: &[Item]) -> Result<Vec<u32>, NoMemory>
    requires { AllByRecursion IsWrittenItem items.now }
    ensures { IfOk result (λ sizes. sizes.items ≡ map short_bytes items.now) }
{
    let mut sizes = Vec::with_capacity(alloc, items.len())?;
    for item in items {
        sizes.push(short_bytes(*item))?;
    }
    Ok(sizes)
}

/// Writes the bytes before each item, and behind them those of all.
pub(crate) fn fill_places(sizes: &[u32], places: &mut [u32])
    requires len { length places.old ≡ length sizes.now + 1 }
    requires fits { sum sizes.now < 2 ^ 32 }
    ensures { ArePlaces sizes.now places.new }
{
    let mut at = 0;
    for (k, size) in sizes.iter().enumerate() {
        places[k] = at;
        at += *size;
    }
    places[sizes.len()] = at;
}

// Whether a jump of one word at a place leads to another one.
fn reaches(from: u32, to: u32) -> bool
    requires from { from < 2 ^ 31 + 1 }
    requires to { to < 2 ^ 31 + 1 }
    ensures { result ≡ reaches from to }
{
    from + WORD_BYTES <= to + REACH && to <= from + REACH
}

// The bytes of an item that stands at one place and leads to another.
fn widened(item: Item, size: u32, from: u32, to: u32) -> u32
    requires from { from < 2 ^ 31 + 1 }
    requires to { to < 2 ^ 31 + 1 }
    ensures { result ≡ widened item size from to }
{
    match item {
        Item::Jump(condition, _) if size == WORD_BYTES && !reaches(from, to) => {
            long_bytes(condition)
        }
        _ => size,
    }
}

/// Gives the longer form to the jumps of one word that do not reach their targets, where items stand at these places.
/// Tells whether there was one.
pub(crate) fn widen(items: &[Item], targets: &[usize], places: &[u32], sizes: &mut [u32]) -> bool
    requires targets { AreTargets items.now targets.now }
    requires len { length sizes.old ≡ length items.now }
    requires places { length places.now ≡ length items.now + 1 }
    requires small { (k : ℕ) → slice_index places.now k < 2 ^ 31 + 1 }
    ensures len { length sizes.new ≡ length items.now }
    ensures widened { AreWidened items.now targets.now places.now sizes.old sizes.new }
    ensures same { result ≡ false → sizes.new ≡ sizes.old }
    ensures more { result ≡ true → sum sizes.old < sum sizes.new }
{
    let mut grown = false;
    for (k, item) in items.iter().enumerate() {
        let size = widened(*item, sizes[k], places[k], places[targets[k]]);
        if size != sizes[k] {
            sizes[k] = size;
            grown = true;
        }
    }
    grown
}
