//! A mote that runs an image on its board, and writes its trace as it goes.

ghost use Rattle.std.specs.Prelude.{◌≡◌, ◌+◌, ◌<◌, ◌≤◌, ◌^◌, ◌++◌, false, length, IfOk, OnOk};
ghost use Rattle.std.specs.Option.{option_to_list};
ghost use Rattle.msp_isa.specs.Image.{bytes_map};
ghost use Rattle.mote_devices.specs.Board.{with_closed_mask};
ghost use Rattle.mote_devices.specs.Outside.{Outside, board_ports};
ghost use Rattle.msp430_cpu.specs.Cpu.{cpuoff};
ghost use Rattle.msp430_cpu.specs.Slots.{Running, slot};
ghost use Rattle.mote_bus.specs.Accesses.{events_of};
ghost use Rattle.mote_bus.specs.Mote.{mote, mote_after, events};
ghost use Rattle.mote_text.specs.TraceText.{trace_lines};
ghost use Rattle.mote_run.specs.Rows.{DoNotFall, due_count, happen, arrivals};
ghost use Rattle.mote_run.specs.Held.{Held, Follows, IsFresh, image_in, board_in, given_to, all_given, step_of, after_step};
ghost use Rattle.nm_base.specs.Outside.{Writes};
ghost use Rattle.mote_run.specs.Gathers.{Gathers, gathering};
ghost use Rattle.mote_run.specs.RunText.{mote_text, EndsAs, shown_behind as events_behind, in_slot, slot_events};

use crate::stepped::{instructions, is_stop, shown_behind};
use crate::trace_line::{Waiting, gather_end, gather_event, write_waiting};
use mote_bus::{Access, AsBoard, BusOf, Slots};
use mote_devices::{Device, Due, Given, Shown};
use mote_text::{End, Loaded};
use msp430_cpu::{Bus, Cpu, Stepped};
use nm_base::{NoMemory, RAM_END, Sink, WriteFault};
use std::alloc::Global;

/// A mote with a board of devices. It has run `slots` slots, of which `ran` ran an instruction; `least` is the least
/// SP after any of them.
#[derive(Drop)]
pub struct MoteOf<D> {
    cpu: Cpu,
    pub(crate) bus: BusOf<D>,
    slots: u32,
    ran: u32,
    least: u16,
    pub(crate) stopped: bool,
}

/// A mote with the board of boxed devices.
pub type BoardMote = MoteOf<Box<dyn Device>>;

/// What contracts see of a mote.
pub trait AsMote {
    ghost held: { Self → Held };
}

impl<D: Device> AsMote for MoteOf<D> {
    ghost held = { λ m. record { joined = record { cpu = m.cpu; bus = ⟦<BusOf<D> as Bus>⟧.kept m.bus }; slots = m.slots; ran = m.ran; least = m.least; stopped = m.stopped } };
}

impl<D: Device> MoteOf<D> {
    /// The mote at reset, with this image and these devices.
    pub fn load(alloc: Global, image: &Loaded, mut board: Slots<D>) -> Result<MoteOf<D>, NoMemory>
        ensures fresh { IfOk result (λ m. IsFresh (⟦<MoteOf<D> as AsMote>⟧.held m)) }
        ensures image { IfOk result (λ m. image_in (⟦<MoteOf<D> as AsMote>⟧.held m) ≡ bytes_map image.now) }
        ensures board { IfOk result (λ m. board_in (⟦<MoteOf<D> as AsMote>⟧.held m) ≡ with_closed_mask (⟦<Slots<D> as AsBoard>⟧.board board)) }
    {
        board.reset();
        let bus = BusOf::new(alloc, image, board)?;
        let cpu = Cpu::new(bus.fetch(0xFFFE));
        Ok(MoteOf {
            cpu,
            bus,
            slots: 0,
            ran: 0,
            least: RAM_END,
            stopped: false,
        })
    }

    /// What comes from outside goes to the board.
    pub(crate) fn give(&mut self, given: Given)
        ensures { ⟦<MoteOf<D> as AsMote>⟧.held self.new ≡ given_to (⟦<MoteOf<D> as AsMote>⟧.held self.old) given }
    {
        let board = self.bus.board_mut();
        match given {
            Given::Arrive(k, value) => board.arrive(k, value),
            Given::Unplug(k) => {
                board.unplug(k);
            }
        }
    }

    /// One step, of which the accesses are kept.
    pub(crate) fn step(&mut self) -> Stepped
        requires slots { self.old.slots + 1 < 2 ^ 32 }
        requires ran { self.old.ran + 1 < 2 ^ 32 }
        ensures held { ⟦<MoteOf<D> as AsMote>⟧.held self.new ≡ after_step (⟦<MoteOf<D> as AsMote>⟧.held self.old) (step_of (⟦<MoteOf<D> as AsMote>⟧.held self.old)) }
        ensures stepped { result ≡ (step_of (⟦<MoteOf<D> as AsMote>⟧.held self.old)).stepped }
        ensures slots { self.new.slots ≡ self.old.slots + 1 }
        ensures ran { self.new.ran ≤ self.old.ran + 1 }
    {
        self.bus.forget();
        let stepped = self.cpu.step(&mut self.bus);
        self.slots += 1;
        self.ran += instructions(stepped);
        self.least = self.least.min(self.cpu.reg(1));
        self.stopped = is_stop(stepped);
        stepped
    }

    /// How the run ended.
    pub(crate) fn end(&self) -> End
        ensures { result ≡ record { slots = self.now.slots; ran = self.now.ran; least = self.now.least; off = cpuoff self.now.cpu } }
    {
        End {
            slots: self.slots,
            ran: self.ran,
            least: self.least,
            off: self.cpu.is_off(),
        }
    }

    // The rows happen, and each is shown.
    fn take_due<S: Sink>(
        &mut self,
        number: u32,
        due: &[Due],
        out: &mut S,
        waiting: &mut Waiting,
    ) -> Result<(), WriteFault>
        ensures held { OnOk result (⟦<MoteOf<D> as AsMote>⟧.held self.new ≡ all_given (⟦<MoteOf<D> as AsMote>⟧.held self.old) due.now) }
        ensures wrote { Gathers result (gathering (S.seen out.old) waiting.old.items) (gathering (S.seen out.new) waiting.new.items) (trace_lines (in_slot number (arrivals due.now))) }
        ensures slots { self.new.slots ≡ self.old.slots }
        ensures ran { self.new.ran ≡ self.old.ran }
    {
        for row in due {
            self.give(row.given);
            gather_event(out, waiting, number, Shown::Given(row.given))?;
        }
        Ok(())
    }

    // One slot, of which the lines are gathered: what is due, and then a step.
    fn take_slot<S: Sink>(
        &mut self,
        number: u32,
        due: &[Due],
        out: &mut S,
        waiting: &mut Waiting,
    ) -> Result<(), WriteFault>
        requires goes_on { self.old.stopped ≡ false }
        requires slots { self.old.slots + 1 < 2 ^ 32 }
        requires ran { self.old.ran + 1 < 2 ^ 32 }
        ensures follows { (running : Running Outside) → Follows (⟦<MoteOf<D> as AsMote>⟧.held self.old) running → OnOk result (Follows (⟦<MoteOf<D> as AsMote>⟧.held self.new) (slot board_ports (happen due.now) running)) }
        ensures wrote { (running : Running Outside) → Follows (⟦<MoteOf<D> as AsMote>⟧.held self.old) running → Gathers result (gathering (S.seen out.old) waiting.old.items) (gathering (S.seen out.new) waiting.new.items) (trace_lines (slot_events number (happen due.now) running)) }
        ensures slots { self.new.slots ≤ self.old.slots + 1 }
        ensures ran { self.new.ran ≤ self.old.ran + 1 }
    {
        self.take_due(number, due, out, waiting)?;
        let stepped = self.step();
        gather_step(out, waiting, number, self.bus.accesses(), stepped)
    }

    // So many slots, or those up to the one that stops the mote, of which the lines are gathered.
    fn run_slots<S: Sink>(
        &mut self,
        schedule: &[Due],
        budget: u32,
        out: &mut S,
        waiting: &mut Waiting,
    ) -> Result<(), WriteFault>
        requires fresh { IsFresh (⟦<MoteOf<D> as AsMote>⟧.held self.old) }
        requires order { DoNotFall schedule.now }
        ensures follows { let m = ⟦<MoteOf<D> as AsMote>⟧.held self.old in OnOk result (Follows (⟦<MoteOf<D> as AsMote>⟧.held self.new) (mote_after (image_in m) (board_in m) schedule.now budget)) }
        ensures wrote { let m = ⟦<MoteOf<D> as AsMote>⟧.held self.old in Gathers result (gathering (S.seen out.old) waiting.old.items) (gathering (S.seen out.new) waiting.new.items) (trace_lines (events (image_in m) (board_in m) schedule.now budget)) }
    {
        let mut rest = schedule;
        for slot in 0..budget {
            if self.stopped {
                return Ok(());
            }
            let (due, later) = rest.split_at(count_due(rest, slot));
            self.take_slot(slot, due, out, waiting)?;
            rest = later;
        }
        Ok(())
    }

    // The slots and their lines, and the last line.
    fn run_to_end<S: Sink>(
        &mut self,
        schedule: &[Due],
        budget: u32,
        out: &mut S,
        waiting: &mut Waiting,
    ) -> Result<End, WriteFault>
        requires fresh { IsFresh (⟦<MoteOf<D> as AsMote>⟧.held self.old) }
        requires order { DoNotFall schedule.now }
        ensures wrote { let m = ⟦<MoteOf<D> as AsMote>⟧.held self.old in Gathers result (gathering (S.seen out.old) waiting.old.items) (gathering (S.seen out.new) waiting.new.items) (mote_text (image_in m) (board_in m) schedule.now budget) }
        ensures ended { let m = ⟦<MoteOf<D> as AsMote>⟧.held self.old in IfOk result (λ end. EndsAs end (mote (image_in m) (board_in m) schedule.now budget)) }
        ensures follows { let m = ⟦<MoteOf<D> as AsMote>⟧.held self.old in OnOk result (Follows (⟦<MoteOf<D> as AsMote>⟧.held self.new) (mote_after (image_in m) (board_in m) schedule.now budget)) }
    {
        self.run_slots(schedule, budget, out, waiting)?;
        let end = self.end();
        gather_end(out, waiting, &end)?;
        Ok(end)
    }

    /// Runs a mote that was just loaded for `budget` slots, or up to the one that stops it. The rows of the schedule
    /// happen at the beginning of their slots, which do not fall. Writes one line for each event, in large pieces, and then
    /// how the run ended, which it answers; where the sink fails, a part of this text was taken.
    pub fn run<S: Sink>(
        &mut self,
        schedule: &[Due],
        budget: u32,
        out: &mut S,
    ) -> Result<End, WriteFault>
        requires fresh { IsFresh (⟦<MoteOf<D> as AsMote>⟧.held self.old) }
        requires order { DoNotFall schedule.now }
        ensures wrote { let m = ⟦<MoteOf<D> as AsMote>⟧.held self.old in Writes result (S.seen out.old) (S.seen out.new) (mote_text (image_in m) (board_in m) schedule.now budget) }
        ensures ended { let m = ⟦<MoteOf<D> as AsMote>⟧.held self.old in IfOk result (λ end. EndsAs end (mote (image_in m) (board_in m) schedule.now budget)) }
        ensures follows { let m = ⟦<MoteOf<D> as AsMote>⟧.held self.old in OnOk result (Follows (⟦<MoteOf<D> as AsMote>⟧.held self.new) (mote_after (image_in m) (board_in m) schedule.now budget)) }
    {
        let mut waiting = Waiting::new();
        let end = self.run_to_end(schedule, budget, out, &mut waiting)?;
        write_waiting(out, &mut waiting)?;
        Ok(end)
    }
}

/// How many of the first rows are those of a slot.
pub(crate) fn count_due(rows: &[Due], slot: u32) -> usize
    ensures count { result ≡ due_count rows.now slot }
    ensures within { result ≤ length rows.now }
{
    let mut count = 0;
    for row in rows {
        if row.slot != slot {
            return count;
        }
        count += 1;
    }
    count
}

// The lines of a step.
fn gather_step<S: Sink>(
    out: &mut S,
    waiting: &mut Waiting,
    number: u32,
    accesses: &[Access],
    stepped: Stepped,
) -> Result<(), WriteFault>
    ensures { Gathers result (gathering (S.seen out.old) waiting.old.items) (gathering (S.seen out.new) waiting.new.items) (trace_lines (in_slot number (events_of accesses.now ++ events_behind stepped))) }
{
    for access in accesses {
        gather_shown(out, waiting, number, access.shown())?;
    }
    gather_shown(out, waiting, number, shown_behind(stepped))
}

fn gather_shown<S: Sink>(
    out: &mut S,
    waiting: &mut Waiting,
    number: u32,
    shown: Option<Shown>,
) -> Result<(), WriteFault>
    ensures { Gathers result (gathering (S.seen out.old) waiting.old.items) (gathering (S.seen out.new) waiting.new.items) (trace_lines (in_slot number (option_to_list shown))) }
{
    match shown {
        Some(shown) => gather_event(out, waiting, number, shown),
        None => Ok(()),
    }
}
