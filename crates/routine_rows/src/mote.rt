//! A mote whose code calls one routine, over and over.

ghost use Rattle.std.specs.Prelude.{◌≡◌, ℕ, ◌<◌, ◌+◌, None, length};
ghost use Rattle.msp_isa.specs.Encode.{IsDestination, IsSource, IsWritten};
ghost use Rattle.msp_checks.specs.Written.{HaveFewRuns};

use mid_code::MidCode;
use msp_isa::{Instr, Op1, Op2, Operand, encode, load_image};
use msp_layout::layout;
use msp_routines::routines_of;
use msp430_cpu::{Bus, Cpu, MemoryBus};
use nm_base::{FAULT, Fault, Ports, RAM_END, RAM_START};
use std::alloc::Global;

/// What the caller writes to FAULT behind the call.
const BACK: u16 = 0xFF;

/// Where the caller's code stands.
const CALLER: u16 = 0x1200;

/// Where the caller finds the four words that it passes.
const PASSED: u16 = RAM_START;

/// The instructions of the caller in front of those of the routine.
const CALLER_STEPS: u32 = 14;

/// More instructions than any routine takes.
const MOST_STEPS: u32 = 4_000;

/// The word that was written to FAULT last.
#[derive(Drop)]
struct Latch {
    word: u16,
}

impl Ports for Latch {
    ghost Kept = { ℕ };

    ghost kept = { λ l. l.word };

    ghost ops = { record { get = λ d port. (d, d); put = λ d port v. v; line = λ d. None; accept = λ d v. d; stopped = λ d. None; illegal = λ d. d } };

    fn get(&mut self, _port: u16) -> u16 {
        self.word
    }

    fn put(&mut self, _port: u16, value: u16) {
        self.word = value;
    }

    fn line(&self) -> Option<u8> {
        None
    }

    fn accept(&mut self, _line: u8) {}

    fn stopped(&self) -> Option<u8> {
        None
    }
}

/// How a call ended: whether the routine came back or raised fault 2, what R12 to R15 had then, whether R4 to R11 and SP had what
/// they had before, and the instructions and bytes of stack that the call took.
#[derive(Drop)]
pub struct Called {
    pub is_back: bool,
    pub is_fault: bool,
    pub words: [u16; 4],
    pub keeps: bool,
    pub steps: u32,
    pub stack: u16,
}

/// A mote with all routines.
#[derive(Drop)]
pub struct Mote {
    bus: MemoryBus<Latch>,
}

impl Mote {
    /// A mote with the routines of this code, which calls the one at a place.
    pub fn load(alloc: Global, code: &MidCode, place: u32) -> Result<Mote, Fault>
        requires few { HaveFewRuns code.now.checks }
        requires place { place < 48 + length code.now.checks }
    {
        let fns = routines_of(alloc, code)?;
        let image = layout(alloc, fns.as_slice(), &[0; 8], place, 0)?;
        let loaded = load_image(alloc, &image)?;
        let mut bus = MemoryBus::load(alloc, loaded.bytes(), Latch { word: 0 })?;
        put_caller(&mut bus, image.vectors[15]);
        Ok(Mote { bus })
    }

    /// Calls the routine with these words in R12 to R15.
    pub fn call(&mut self, passed: [u16; 4]) -> Called {
        put_passed(&mut self.bus, passed);
        let mut cpu = Cpu::new(CALLER);
        let mut lowest = RAM_END;
        let mut steps = 0;
        for step in 1..MOST_STEPS {
            cpu.step(&mut self.bus);
            steps = step;
            lowest = lowest.min(cpu.reg(1));
            if self.bus.ports.word != 0 {
                break;
            }
        }
        at_end(&cpu, self.bus.ports.word, steps, lowest)
    }
}

// What there is to say of a call at its end.
fn at_end(cpu: &Cpu, fault: u16, steps: u32, lowest: u16) -> Called {
    let is_back = fault == BACK;
    let own_steps = if is_back { 1 } else { 0 };
    Called {
        is_back,
        is_fault: fault == 2,
        words: [cpu.reg(12), cpu.reg(13), cpu.reg(14), cpu.reg(15)],
        keeps: keeps(cpu),
        steps: steps.saturating_sub(CALLER_STEPS + own_steps),
        stack: RAM_END.saturating_sub(lowest),
    }
}

fn keeps(cpu: &Cpu) -> bool {
    for r in 4..12 {
        if cpu.reg(r) != kept(r) {
            return false;
        }
    }
    cpu.reg(1) == RAM_END
}

// What R4 to R11 have when the routine is called.
fn kept(r: u8) -> u16 {
    0xA500 + u16::from(r)
}

fn put_passed(bus: &mut MemoryBus<Latch>, passed: [u16; 4]) {
    let mut at = PASSED;
    for word in passed {
        bus.write(at, true, word);
        at = at.wrapping_add(2);
    }
}

// The caller's code: nothing has happened yet; R12 to R15 from memory, R4 to R11, the call, and that it is over.
fn put_caller(bus: &mut MemoryBus<Latch>, entry: u16) {
    let mut at = put_move(bus, CALLER, Operand::Immediate(0), Operand::Absolute(FAULT));
    for r in 12..16 {
        let from = PASSED + 2 * (u16::from(r) - 12);
        at = put_move(bus, at, Operand::Absolute(from), Operand::Reg(r));
    }
    for r in 4..12 {
        at = put_move(bus, at, Operand::Immediate(kept(r)), Operand::Reg(r));
    }
    let call = Instr::One(Op1::Call, false, Operand::Immediate(entry));
    at = put_instr(bus, at, &call);
    put_move(bus, at, Operand::Immediate(BACK), Operand::Absolute(FAULT));
}

fn put_move(bus: &mut MemoryBus<Latch>, at: u16, from: Operand, to: Operand) -> u16
    requires source { IsSource from }
    requires destination { IsDestination to }
{
    put_instr(bus, at, &Instr::Two(Op2::Mov, false, from, to))
}

// The words of an instruction, and the address behind them.
fn put_instr(bus: &mut MemoryBus<Latch>, at: u16, instr: &Instr) -> u16
    requires { IsWritten instr.now }
{
    let words = encode(instr);
    let mut end = at;
    for i in 0..3 {
        if i < words.len {
            bus.write(end, true, words.w[i]);
            end = end.wrapping_add(2);
        }
    }
    end
}
