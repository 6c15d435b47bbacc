//! The memory of a mote in front of its board.

ghost use Rattle.std.specs.Prelude.{◌≡◌, IfOk, [], None};
ghost use Rattle.std.specs.Borrow.{Lends, sem};
ghost use Rattle.mote_bus.specs.contracts.board.Slots.{the_row as slots_row};
ghost use Rattle.mote_bus.specs.contracts.bus.BusOf.{the_row as bus_row};
ghost use Rattle.msp_isa.specs.Image.{bytes_map};
ghost use Rattle.msp430_cpu.specs.Memory.{Memory, memory_bus};
ghost use Rattle.msp430_cpu.specs.Kept.{memory_of};
ghost use Rattle.mote_bus.specs.Slots.{Bare, board_with, bare_ports};
ghost use Rattle.mote_bus.specs.Accesses.{Noted, noted, noting};

use crate::access::Access;
use crate::board::{AsBoard, Slots};
use arrayvec::ArrayVec;
use mote_devices::Device;
use msp_isa::Loaded;
use msp430_cpu::{Bus, MemoryBus};
use nm_base::NoMemory;
use std::alloc::Global;

/// RAM, code and the ports of a board. It keeps the first four reads and writes since it was made or last forgot
/// them; a step of the processor makes at most three.
#[derive(Drop)]
pub struct BusOf<D> {
    memory: MemoryBus<Slots<D>>,
    accesses: ArrayVec<Access, 4>,
}

/// The bus of a mote.
pub type MoteBus = BusOf<Box<dyn Device>>;

impl<D: Device> BusOf<D> {
    /// The bus at reset: the image's bytes, RAM that is all 0, and this board.
    pub fn new(alloc: Global, image: &Loaded, board: Slots<D>) -> Result<BusOf<D>, NoMemory>
        ensures { IfOk result (λ b. ⟦<BusOf<D> as Bus>⟧.kept b ≡ record { memory = record { ram = λ a. 0; code = bytes_map image.now; ports = record { board = ⟦<Slots<D> as AsBoard>⟧.board board; stopped = ⟦<Slots<D> as AsBoard>⟧.stop board } }; accesses = [] }) }
    {
        Ok(BusOf {
            memory: MemoryBus::load(alloc, image.bytes(), board)?,
            accesses: ArrayVec::new(),
        })
    }

    /// The board behind the ports.
    pub fn board_mut(&mut self) -> &mut Slots<D>
        ensures* writes_back { sem 𝓛 (Lends (bus_row D.row) (slots_row D.row) self.entry result (λ w. record self.entry.now { memory = record self.entry.now.memory { ports = w } })) }
        ensures value { result.now ≡ self.old.memory.ports }
    {
        self.memory.ports_mut()
    }

    /// The first four reads and writes, in their order, since the bus was made or last forgot them.
    pub fn accesses(&self) -> &[Access]
        ensures { result.now ≡ (⟦<BusOf<D> as Bus>⟧.kept self.now).accesses }
    {
        self.accesses.as_slice()
    }

    /// Drops the reads and writes that were kept.
    pub fn forget(&mut self)
        ensures { ⟦<BusOf<D> as Bus>⟧.kept self.new ≡ record (⟦<BusOf<D> as Bus>⟧.kept self.old) { accesses = [] } }
    {
        self.accesses.clear();
    }

    fn note(&mut self, access: Access)
        ensures { ⟦<BusOf<D> as Bus>⟧.kept self.new ≡ record (⟦<BusOf<D> as Bus>⟧.kept self.old) { accesses = noted (⟦<BusOf<D> as Bus>⟧.kept self.old).accesses access } }
    {
        if !self.accesses.is_full() {
            self.accesses.push(access);
        }
    }
}

impl<D: Device> Bus for BusOf<D> {
    ghost Kept = { Noted (Memory Bare) };

    ghost kept = { λ b. record { memory = memory_of b.memory.ram.items b.memory.code.items (record { board = board_with D.state b.memory.ports.mask b.memory.ports.slots; stopped = b.memory.ports.stopped }); accesses = b.accesses.items } };

    ghost ops = { noting (memory_bus bare_ports) };

    fn read(&mut self, addr: u16, wide: bool) -> u16 {
        let value = self.memory.read(addr, wide);
        self.note(Access::Read(addr, wide, value));
        value
    }

    fn write(&mut self, addr: u16, wide: bool, value: u16) {
        self.memory.write(addr, wide, value);
        self.note(Access::Write(addr, wide, value));
    }

    fn fetch(&self, addr: u16) -> u16 {
        self.memory.fetch(addr)
    }

    fn line(&self) -> Option<u8> {
        self.memory.line()
    }

    fn accept(&mut self, v: u8) {
        self.memory.accept(v);
    }

    fn stopped(&self) -> Option<u8> {
        self.memory.stopped()
    }
}
