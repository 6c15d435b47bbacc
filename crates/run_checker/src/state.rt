//! The state of a run.

ghost use Rattle.std.specs.Prelude.{◌≡◌, ◌<◌, ◌≤◌, ◌+◌, ℕ, IfOk, None, slice_index_or, slice_set, length, option_and_then, replicate};
ghost use Rattle.mote_devices.specs.Board.{with_closed_mask};
ghost use Rattle.nesc_core.specs.View.{program_of};
ghost use Rattle.nesc_core.specs.WellFormed.{IsWellFormed};
ghost use Rattle.core_meaning.specs.SourceOf.{handler_in, source_of};
ghost use Rattle.run_meaning.specs.State as runs;
ghost use Rattle.run_meaning.specs.Runs as moves;
ghost use Rattle.run_checker.specs.States.{AreKnown, byte_at, bytes, state_of};

use crate::context::{Progress, begun};
use mote_devices::BoardState;
use nesc_core::Program;
use nm_base::NoMemory;
use std::alloc::Global;
use std::collections::VecDeque;

/// The bytes of the store, and the one behind the last address, which a word there has.
const STORE_BYTES: usize = 65_537;

/// The store, the board, the tasks that wait, what the base and a handler have done, and whether the run has stopped.
#[derive(Drop)]
pub(crate) struct RunState {
    pub store: Vec<u8>,
    pub board: BoardState,
    pub tasks: VecDeque<u32>,
    pub base: Option<Progress>,
    pub handler: Option<Progress>,
    pub stopped: bool,
}

fn zeros(alloc: Global, count: usize) -> Result<Vec<u8>, NoMemory>
    ensures { IfOk result (λ v. v.items ≡ replicate count 0) }
{
    Ok(vec![in alloc; 0; count]?)
}

/// The state in which a run begins on this board.
pub(crate) fn start(
    alloc: Global,
    p: &Program,
    board: &BoardState,
    turns: u32,
) -> Result<RunState, NoMemory>
    requires { IsWellFormed (program_of p.now) }
    ensures state { IfOk result (λ r. state_of r ≡ runs.start (source_of (program_of p.now)) board.now) }
    ensures known { IfOk result (λ r. AreKnown (program_of p.now) turns 0 r) }
{
    let base = begun(alloc, p, Some(p.boot), turns)?;
    Ok(RunState {
        store: zeros(alloc, STORE_BYTES)?,
        board: BoardState {
            mask: 0,
            slots: board.slots,
        },
        tasks: VecDeque::new(alloc),
        base: Some(base),
        handler: None,
        stopped: false,
    })
}

fn byte(store: &[u8], address: u32) -> u8
    ensures { result ≡ byte_at store.now address }
{
    match store.get(address as usize) {
        Some(byte) => *byte,
        None => 0,
    }
}

/// The byte or the word at this address.
pub(crate) fn loaded(store: &[u8], address: u16, is_word: bool) -> u16
    ensures { result ≡ runs.loaded (bytes store.now) address is_word }
{
    let low = u16::from(byte(store, u32::from(address)));
    if is_word {
        low + 256 * u16::from(byte(store, u32::from(address) + 1))
    } else {
        low
    }
}

fn set_byte(store: &mut [u8], address: u32, byte: u8)
    requires { address < length store.old }
    ensures { store.new ≡ slice_set store.old address byte }
{
    store[address as usize] = byte;
}

/// Puts a byte or a word to this address.
#[tactic(auto, using(crate::proofs::StoreLemmas::stores))]
pub(crate) fn put(store: &mut [u8], address: u16, is_word: bool, word: u16)
    requires { length store.old ≡ 65537 }
    ensures bytes { bytes store.new ≡ runs.stored (bytes store.old) address is_word word }
    ensures size { length store.new ≡ 65537 }
{
    if is_word {
        set_byte(store, u32::from(address) + 1, (word / 256) as u8);
    }
    set_byte(store, u32::from(address), (word % 256) as u8);
}

/// Whether this task waits.
pub(crate) fn is_waiting(tasks: &VecDeque<u32>, k: u32) -> bool
    ensures { result ≡ moves.is_listed tasks.now.items k }
{
    tasks.iter().any(|task| *task == k)
}

/// The body of the first entry of this line.
pub(crate) fn handler_of(p: &Program, line: u8) -> Option<u32>
    ensures { result ≡ handler_in (program_of p.now).handlers line }
{
    let mut rest = p.handlers.as_slice();
    while let Some((handler, more)) = rest.split_first() {
        if handler.0 == line {
            return Some(handler.1);
        }
        rest = more;
    }
    None
}
