//! The board of a run: the mask and the states of the devices.

ghost use Rattle.std.specs.Prelude.{◌≡◌, ◌≤◌, ◌<◌, ◌^◌, length, slice_set};
ghost use Rattle.mote_devices.specs.Board as boards;
ghost use Rattle.mote_devices.specs.Device.{dev_ack, dev_arrive, dev_read, dev_write};
ghost use Rattle.run_checker.specs.Boards.{with_slot as slot_put};

use crate::device::{accepted, after_read, answer, arrived, requests, written};
use mote_devices::{BoardState, DevState, Given};
use nm_base::{ENABLE, PENDING};

// The device in slot `k`; slots from 8 on are empty.
fn device_at(b: &BoardState, k: u8) -> Option<DevState>
    ensures { result ≡ boards.device b.now k }
{
    if k < 8 { b.slots[usize::from(k)] } else { None }
}

fn set_slot(slots: &mut [Option<DevState>], k: u8, slot: Option<DevState>)
    ensures { slots.new ≡ slice_set slots.old k slot }
{
    if usize::from(k) < slots.len() {
        slots[usize::from(k)] = slot;
    }
}

// The board with this in slot `k`.
fn with_slot(b: &BoardState, k: u8, slot: Option<DevState>) -> BoardState
    ensures { result ≡ slot_put b.now k slot }
{
    let mut after = *b;
    set_slot(&mut after.slots, k, slot);
    after
}

fn arrived_in(slot: Option<DevState>, word: u16) -> Option<DevState>
    ensures { result ≡ boards.changed (λ d. dev_arrive d word) slot }
{
    match slot {
        Some(d) => Some(arrived(d, word)),
        None => None,
    }
}

/// The board after what came from outside.
pub(crate) fn given(b: &BoardState, g: Given) -> BoardState
    ensures { result ≡ boards.board_given b.now g }
{
    match g {
        Given::Arrive(k, word) => with_slot(b, k, arrived_in(device_at(b, k), word)),
        Given::Unplug(k) => with_slot(b, k, None),
    }
}

fn accepted_in(slot: Option<DevState>) -> Option<DevState>
    ensures { result ≡ boards.changed dev_ack slot }
{
    match slot {
        Some(d) => Some(accepted(d)),
        None => None,
    }
}

/// The board after the acceptance of line `k`.
pub(crate) fn acknowledged(b: &BoardState, k: u8) -> BoardState
    ensures { result ≡ boards.board_ack b.now k }
{
    with_slot(b, k, accepted_in(device_at(b, k)))
}

fn slot_of(port: u16) -> u8
    requires low { 0x0120 ≤ port }
    requires high { port < 0x0160 }
    ensures { result ≡ boards.slot_of port }
{
    ((port - 0x0120) / 8) as u8
}

fn register_of(port: u16) -> u8
    requires low { 0x0120 ≤ port }
    ensures { result ≡ boards.register_of port }
{
    ((port - 0x0120) / 2 % 4) as u8
}

fn answer_in(slot: Option<DevState>, register: u8) -> u16
    ensures { result ≡ boards.answer_of slot register }
{
    match slot {
        Some(d) => answer(d, register),
        None => 0,
    }
}

/// What a port reads.
pub(crate) fn port_answer(b: &BoardState, port: u16) -> u16
    ensures { result ≡ boards.board_answer b.now port }
{
    match port {
        ENABLE => b.mask,
        PENDING => request_bits(&b.slots),
        0x0120..0x0160 => answer_in(device_at(b, slot_of(port)), register_of(port)),
        _ => 0,
    }
}

fn read_in(slot: Option<DevState>, register: u8) -> Option<DevState>
    ensures { result ≡ boards.changed (λ d. dev_read d register) slot }
{
    match slot {
        Some(d) => Some(after_read(d, register)),
        None => None,
    }
}

/// The board after a read of a port.
#[tactic(auto, using(crate::proofs::BoardLemmas::ports))]
pub(crate) fn port_read(b: &BoardState, port: u16) -> BoardState
    ensures { result ≡ boards.board_read b.now port }
{
    match port {
        0x0120..0x0160 => {
            let k = slot_of(port);
            with_slot(b, k, read_in(device_at(b, k), register_of(port)))
        }
        _ => *b,
    }
}

fn written_in(slot: Option<DevState>, register: u8, word: u16) -> Option<DevState>
    ensures { result ≡ boards.changed (λ d. dev_write d register word) slot }
{
    match slot {
        Some(d) => Some(written(d, register, word)),
        None => None,
    }
}

/// The board after a write to a port.
#[tactic(auto, using(crate::proofs::BoardLemmas::ports))]
pub(crate) fn port_written(b: &BoardState, port: u16, word: u16) -> BoardState
    ensures { result ≡ boards.board_write b.now port word }
{
    match port {
        ENABLE => BoardState {
            mask: word % 256,
            slots: b.slots,
        },
        0x0120..0x0160 => {
            let k = slot_of(port);
            with_slot(b, k, written_in(device_at(b, k), register_of(port), word))
        }
        _ => *b,
    }
}

fn does_request(slot: Option<DevState>) -> bool
    ensures { result ≡ boards.does_request slot }
{
    match slot {
        Some(d) => requests(d),
        None => false,
    }
}

// Bit k tells whether slot k requests.
fn request_bits(slots: &[Option<DevState>]) -> u16
    requires { length slots.now ≤ 8 }
    ensures bits { result ≡ boards.request_bits slots.now }
    ensures small { result < 2 ^ length slots.now }
{
    match slots {
        [] => 0,
        [slot, rest @ ..] => u16::from(does_request(*slot)) + 2 * request_bits(rest),
    }
}

/// The greatest requested line.
pub(crate) fn line(b: &BoardState) -> Option<u8>
    ensures { result ≡ boards.line_of b.now }
{
    line_below(b, 8)
}

// The greatest requested line below `k`.
fn line_below(b: &BoardState, k: u8) -> Option<u8>
    requires { k ≤ 8 }
    ensures { result ≡ boards.line_below b.now k }
{
    if k == 0 {
        return None;
    }
    let line = k - 1;
    if is_requested(b, line) {
        Some(line)
    } else {
        line_below(b, line)
    }
}

fn is_requested(b: &BoardState, k: u8) -> bool
    requires { k < 8 }
    ensures { result ≡ boards.is_requested b.now k }
{
    (b.mask >> k) % 2 == 1 && does_request(device_at(b, k))
}
