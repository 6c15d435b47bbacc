//! A board: eight slots for devices, and the interrupt controller.

ghost use Rattle.std.specs.Prelude.{◌≡◌, ◌≤◌, ◌<◌, ◌^◌, ◌%◌, ◌==◌, if◌then◌else◌, ℕ, Option, Some, None, is_some, map, vec_len, length};
ghost use Rattle.std.specs.Option.{option_map};
ghost use Rattle.mote_devices.specs.declared.state.BoardState.{BoardState};
ghost use Rattle.mote_devices.specs.declared.shown.Given.TheVariants.{Arrive, Unplug};
ghost use Rattle.mote_devices.specs.Board.{device, board_answer, board_read, board_write, board_given, board_ack, line_of, line_below, is_requested, request_bits, with_closed_mask};
ghost use Rattle.mote_devices.specs.Outside.{first_code};
ghost use Rattle.mote_bus.specs.Slots.{Bare, board_with, board_of, bare_ports};

use crate::slot;
use mote_devices::Device;
use nm_base::{ENABLE, FAULT, PENDING, Ports};

/// Eight slots for devices, the mask of their interrupt lines, and the first code that was written to FAULT.
#[derive(Drop)]
pub struct Slots<D> {
    mask: u16,
    stopped: Option<u8>,
    slots: [Option<D>; 8],
}

/// The board of a mote.
pub type Board = Slots<Box<dyn Device>>;

/// What contracts see of a board: its devices' states under the mask, and the code that stopped the mote.
pub trait AsBoard {
    ghost board: { Self → BoardState };

    ghost stop: { Self → Option ℕ };
}

impl<D: Device> AsBoard for Slots<D> {
    ghost board = { λ b. board_with D.state b.mask b.slots };

    ghost stop = { λ b. b.stopped };
}

#[tactic(auto, using(crate::proofs::SlotLemmas::steps))]
impl<D: Device> Slots<D> {
    /// A board with these devices in its first slots, at most eight, and the mask 0.
    pub fn new(devices: Vec<D>) -> Slots<D>
        requires { vec_len devices ≤ 8 }
        ensures board { ⟦<Slots<D> as AsBoard>⟧.board result ≡ board_of (map D.state devices.items) }
        ensures stop { ⟦<Slots<D> as AsBoard>⟧.stop result ≡ None }
    {
        Slots {
            mask: 0,
            stopped: None,
            slots: slot::filled(devices),
        }
    }

    /// Reads a word from a port. A port that nothing stands behind reads 0.
    pub fn read(&mut self, port: u16) -> u16
        ensures value { result ≡ board_answer (⟦<Slots<D> as AsBoard>⟧.board self.old) port }
        ensures board { ⟦<Slots<D> as AsBoard>⟧.board self.new ≡ board_read (⟦<Slots<D> as AsBoard>⟧.board self.old) port }
        ensures stop { ⟦<Slots<D> as AsBoard>⟧.stop self.new ≡ ⟦<Slots<D> as AsBoard>⟧.stop self.old }
    {
        match port {
            ENABLE => self.mask,
            PENDING => request_bits(&self.slots),
            0x0120..0x0160 => {
                let slot = usize::from((port - 0x0120) / 8);
                let register = ((port - 0x0120) / 2 % 4) as u8;
                slot::read(&mut self.slots[slot], register)
            }
            _ => 0,
        }
    }

    /// Writes a word to a port.
    pub fn write(&mut self, port: u16, value: u16)
        ensures board { ⟦<Slots<D> as AsBoard>⟧.board self.new ≡ board_write (⟦<Slots<D> as AsBoard>⟧.board self.old) port value }
        ensures stop { ⟦<Slots<D> as AsBoard>⟧.stop self.new ≡ (if port == 0x0104 then first_code (⟦<Slots<D> as AsBoard>⟧.stop self.old) (value % 256) else ⟦<Slots<D> as AsBoard>⟧.stop self.old) }
    {
        match port {
            ENABLE => self.mask = value % 256,
            FAULT => {
                if self.stopped.is_none() {
                    self.stopped = Some((value % 256) as u8);
                }
            }
            0x0120..0x0160 => {
                let slot = usize::from((port - 0x0120) / 8);
                let register = ((port - 0x0120) / 2 % 4) as u8;
                slot::write(&mut self.slots[slot], register, value);
            }
            _ => {}
        }
    }

    /// Gives a value to the device in slot `k`. Slots from 8 on are empty.
    pub fn arrive(&mut self, k: u8, value: u16)
        ensures board { ⟦<Slots<D> as AsBoard>⟧.board self.new ≡ board_given (⟦<Slots<D> as AsBoard>⟧.board self.old) (Arrive k value) }
        ensures stop { ⟦<Slots<D> as AsBoard>⟧.stop self.new ≡ ⟦<Slots<D> as AsBoard>⟧.stop self.old }
    {
        let slot = usize::from(k);
        if slot < 8 {
            slot::arrive(&mut self.slots[slot], value);
        }
    }

    /// Takes the device in slot `k` out, and tells whether there was one. Slots from 8 on are empty.
    pub fn unplug(&mut self, k: u8) -> bool
        ensures was { result ≡ is_some (device (⟦<Slots<D> as AsBoard>⟧.board self.old) k) }
        ensures board { ⟦<Slots<D> as AsBoard>⟧.board self.new ≡ board_given (⟦<Slots<D> as AsBoard>⟧.board self.old) (Unplug k) }
        ensures stop { ⟦<Slots<D> as AsBoard>⟧.stop self.new ≡ ⟦<Slots<D> as AsBoard>⟧.stop self.old }
    {
        let slot = usize::from(k);
        if slot < 8 {
            let held = self.slots[slot].is_some();
            self.slots[slot] = None;
            held
        } else {
            false
        }
    }

    /// What the board is at reset: the mask is 0, no code was written to FAULT, and each device stays as it is.
    pub fn reset(&mut self)
        ensures board { ⟦<Slots<D> as AsBoard>⟧.board self.new ≡ with_closed_mask (⟦<Slots<D> as AsBoard>⟧.board self.old) }
        ensures stop { ⟦<Slots<D> as AsBoard>⟧.stop self.new ≡ None }
    {
        self.mask = 0;
        self.stopped = None;
    }

    /// The greatest requested line. A device is asked only where the mask lets its line in.
    pub fn line(&self) -> Option<u8>
        ensures { result ≡ line_of (⟦<Slots<D> as AsBoard>⟧.board self.now) }
    {
        if self.mask == 0 {
            return None;
        }
        self.line_below(8)
    }

    fn is_requested(&self, k: u8) -> bool
        requires { k < 8 }
        ensures { result ≡ is_requested (⟦<Slots<D> as AsBoard>⟧.board self.now) k }
    {
        (self.mask >> k) % 2 == 1 && slot::requests(&self.slots[usize::from(k)])
    }

    /// Takes the acceptance of line `k`.
    pub fn accept(&mut self, k: u8)
        ensures board { ⟦<Slots<D> as AsBoard>⟧.board self.new ≡ board_ack (⟦<Slots<D> as AsBoard>⟧.board self.old) k }
        ensures stop { ⟦<Slots<D> as AsBoard>⟧.stop self.new ≡ ⟦<Slots<D> as AsBoard>⟧.stop self.old }
    {
        let slot = usize::from(k);
        if slot < 8 {
            slot::ack(&mut self.slots[slot]);
        }
    }

    /// The first code that was written to FAULT.
    pub fn stopped(&self) -> Option<u8>
        ensures { result ≡ ⟦<Slots<D> as AsBoard>⟧.stop self.now }
    {
        self.stopped
    }

    // The greatest requested line below `k`.
    fn line_below(&self, k: u8) -> Option<u8>
        requires { k ≤ 8 }
        ensures { result ≡ line_below (⟦<Slots<D> as AsBoard>⟧.board self.now) k }
    {
        if k == 0 {
            return None;
        }
        let line = k - 1;
        if self.is_requested(line) {
            Some(line)
        } else {
            self.line_below(line)
        }
    }
}

// Bit k tells whether slot k requests.
fn request_bits<D: Device>(slots: &[Option<D>]) -> u16
    requires { length slots.now ≤ 8 }
    ensures bits { result ≡ request_bits (map (option_map D.state) slots.now) }
    ensures small { result < 2 ^ length slots.now }
{
    match slots {
        [] => 0,
        [slot, rest @ ..] => u16::from(slot::requests(slot)) + 2 * request_bits(rest),
    }
}

impl<D: Device> Ports for Slots<D> {
    ghost Kept = { Bare };

    ghost kept = { λ b. record { board = board_with D.state b.mask b.slots; stopped = b.stopped } };

    ghost ops = { bare_ports };

    fn get(&mut self, port: u16) -> u16 {
        self.read(port)
    }

    fn put(&mut self, port: u16, value: u16) {
        self.write(port, value)
    }

    fn line(&self) -> Option<u8> {
        Slots::line(self)
    }

    fn accept(&mut self, line: u8) {
        Slots::accept(self, line)
    }

    fn stopped(&self) -> Option<u8> {
        self.stopped
    }
}
