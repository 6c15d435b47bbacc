//! What a mote's run comes to, counted and not printed.

ghost use Rattle.std.specs.Prelude.{◌≡◌, ◌+◌, ◌<◌, ◌≤◌, ◌^◌, ◌++◌, false, length, decimal, string_bytes, IfOk, OnOk};
ghost use Rattle.std.specs.Option.{option_to_list};
ghost use Rattle.nm_base.specs.Lists.{number_of};
ghost use Rattle.mote_devices.specs.Outside.{Outside, board_ports};
ghost use Rattle.msp430_cpu.specs.Slots.{Running, slot};
ghost use Rattle.mote_bus.specs.Accesses.{events_of};
ghost use Rattle.mote_bus.specs.Mote.{mote, mote_after};
ghost use Rattle.mote_run.specs.Rows.{DoNotFall, happen};
ghost use Rattle.mote_run.specs.Held.{Follows, IsFresh, image_in, board_in, all_given};
ghost use Rattle.mote_run.specs.RunText.{shown_behind as events_behind};
ghost use Rattle.mote_run.specs.Totals.{counted, all_counted, totals_of, summary_text};

use crate::mote::{AsMote, MoteOf, count_due};
use crate::stepped::shown_behind;
use mote_bus::Access;
use mote_devices::{Device, Due, Shown};
use msp430_cpu::Stepped;
use nm_base::NoMemory;
use std::alloc::Global;
use std::fmt::Write;

/// How many writes to ports and entries of handlers a run shows, and the value that was last written, or 0.
#[derive(Clone, Copy, Debug, PartialEq, Eq)]
pub struct Totals {
    pub outs: u64,
    pub enters: u64,
    pub last: u16,
}

impl<D: Device> MoteOf<D> {
    // The rows happen.
    fn give_all(&mut self, due: &[Due])
        ensures held { ⟦<MoteOf<D> as AsMote>⟧.held self.new ≡ all_given (⟦<MoteOf<D> as AsMote>⟧.held self.old) due.now }
        ensures slots { self.new.slots ≡ self.old.slots }
        ensures ran { self.new.ran ≡ self.old.ran }
    {
        for row in due {
            self.give(row.given);
        }
    }

    // One slot, of which the events are counted: what is due, and then a step.
    fn count_slot(&mut self, due: &[Due], totals: Totals) -> Totals
        requires goes_on { self.old.stopped ≡ false }
        requires slots { self.old.slots + 1 < 2 ^ 32 }
        requires ran { self.old.ran + 1 < 2 ^ 32 }
        requires room { totals.outs + totals.enters + 4 < 2 ^ 64 }
        ensures follows { (running : Running Outside) → Follows (⟦<MoteOf<D> as AsMote>⟧.held self.old) running → Follows (⟦<MoteOf<D> as AsMote>⟧.held self.new) (slot board_ports (happen due.now) running) }
        ensures counts { (running : Running Outside) → Follows (⟦<MoteOf<D> as AsMote>⟧.held self.old) running → totals ≡ totals_of running.joined.bus.ports.shown → result ≡ totals_of (slot board_ports (happen due.now) running).joined.bus.ports.shown }
        ensures few { result.outs + result.enters ≤ totals.outs + totals.enters + 4 }
        ensures slots { self.new.slots ≤ self.old.slots + 1 }
        ensures ran { self.new.ran ≤ self.old.ran + 1 }
    {
        self.give_all(due);
        let stepped = self.step();
        with_step(totals, self.bus.accesses(), stepped)
    }

    // So many slots, or those up to the one that stops the mote, of which the events are counted.
    fn count_slots(&mut self, schedule: &[Due], budget: u32) -> Totals
        requires fresh { IsFresh (⟦<MoteOf<D> as AsMote>⟧.held self.old) }
        requires order { DoNotFall schedule.now }
        ensures follows { let m = ⟦<MoteOf<D> as AsMote>⟧.held self.old in Follows (⟦<MoteOf<D> as AsMote>⟧.held self.new) (mote_after (image_in m) (board_in m) schedule.now budget) }
        ensures counts { let m = ⟦<MoteOf<D> as AsMote>⟧.held self.old in result ≡ totals_of (mote (image_in m) (board_in m) schedule.now budget).shown }
    {
        let mut totals = Totals {
            outs: 0,
            enters: 0,
            last: 0,
        };
        let mut rest = schedule;
        for slot in 0..budget {
            if self.stopped {
                return totals;
            }
            let (due, later) = rest.split_at(count_due(rest, slot));
            totals = self.count_slot(due, totals);
            rest = later;
        }
        totals
    }

    /// Runs a mote that was just loaded for `budget` slots, or up to the one that stops it, and counts what it shows; the
    /// rows of the schedule happen at the beginning of their slots, which do not fall. Answers the totals, and whether
    /// the processor is off in the end.
    pub fn total(&mut self, schedule: &[Due], budget: u32) -> (Totals, bool)
        requires fresh { IsFresh (⟦<MoteOf<D> as AsMote>⟧.held self.old) }
        requires order { DoNotFall schedule.now }
        ensures totals { let m = ⟦<MoteOf<D> as AsMote>⟧.held self.old in result.0 ≡ totals_of (mote (image_in m) (board_in m) schedule.now budget).shown }
        ensures off { let m = ⟦<MoteOf<D> as AsMote>⟧.held self.old in result.1 ≡ (mote (image_in m) (board_in m) schedule.now budget).off }
        ensures follows { let m = ⟦<MoteOf<D> as AsMote>⟧.held self.old in Follows (⟦<MoteOf<D> as AsMote>⟧.held self.new) (mote_after (image_in m) (board_in m) schedule.now budget) }
    {
        let totals = self.count_slots(schedule, budget);
        let end = self.end();
        (totals, end.off)
    }
}

// One event more.
fn with_event(totals: Totals, shown: Shown) -> Totals
    requires room { totals.outs + totals.enters + 1 < 2 ^ 64 }
    ensures counts { result ≡ counted totals shown }
    ensures few { result.outs + result.enters ≤ totals.outs + totals.enters + 1 }
{
    match shown {
        Shown::Out(_, value) => Totals {
            outs: totals.outs + 1,
            enters: totals.enters,
            last: value,
        },
        Shown::Enter(_) => Totals {
            outs: totals.outs,
            enters: totals.enters + 1,
            last: totals.last,
        },
        Shown::Given(_) | Shown::In(_, _) | Shown::Fault(_) => totals,
    }
}

// The event of an access or of a step, where it has one.
fn with_shown(totals: Totals, shown: Option<Shown>) -> Totals
    requires room { totals.outs + totals.enters + 1 < 2 ^ 64 }
    ensures counts { result ≡ all_counted totals (option_to_list shown) }
    ensures few { result.outs + result.enters ≤ totals.outs + totals.enters + 1 }
{
    match shown {
        Some(shown) => with_event(totals, shown),
        None => totals,
    }
}

// The events of a step.
fn with_step(totals: Totals, accesses: &[Access], stepped: Stepped) -> Totals
    requires room { totals.outs + totals.enters + length accesses.now + 1 < 2 ^ 64 }
    ensures counts { result ≡ all_counted totals (events_of accesses.now ++ events_behind stepped) }
    ensures few { result.outs + result.enters ≤ totals.outs + totals.enters + length accesses.now + 1 }
{
    let mut sum = totals;
    for access in accesses {
        sum = with_shown(sum, access.shown());
    }
    with_shown(sum, shown_behind(stepped))
}

// 1 for a flag that is set, and 0 for one that is not.
fn digit_of(flag: bool) -> u64
    ensures { result ≡ number_of flag }
{
    if flag { 1 } else { 0 }
}

// A name and a number.
fn push_field(text: &mut String, name: &str, number: u64) -> Result<(), NoMemory>
    ensures { OnOk result (string_bytes text.new ≡ string_bytes text.old ++ (name.now ++ decimal number)) }
{
    write!(text, "{name}{number}")?;
    Ok(())
}

/// The line that tells of a run of an application of so many modules.
pub fn summary(alloc: Global, modules: u32, totals: &Totals, off: bool) -> Result<String, NoMemory>
    ensures { IfOk result (λ text. string_bytes text ≡ summary_text modules totals.now off) }
{
    let mut text = String::new(alloc);
    push_field(&mut text, "gen ", u64::from(modules))?;
    push_field(&mut text, " outs ", totals.outs)?;
    push_field(&mut text, " enters ", totals.enters)?;
    push_field(&mut text, " last ", u64::from(totals.last))?;
    push_field(&mut text, " off ", digit_of(off))?;
    text.push_str("\n")?;
    Ok(text)
}
