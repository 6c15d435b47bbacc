//! What is told of a call.

use crate::mote_trace::MoteTrace;
use crate::verdict::Verdict;
use mote_devices::Shown;
use nm_base::NoMemory;
use std::alloc::Global;

/// What a checksum is multiplied by before each number.
const FACTOR: u32 = 31;

/// How many events of each kind a trace has, and a checksum of its port writes.
#[derive(Clone, Copy)]
struct Counts {
    arrivals: u32,
    enters: u32,
    ins: u32,
    outs: u32,
    faults: u32,
    checksum: u32,
}

impl Counts {
    fn new() -> Counts {
        Counts {
            arrivals: 0,
            enters: 0,
            ins: 0,
            outs: 0,
            faults: 0,
            checksum: 0,
        }
    }

    fn sum_up(&mut self, number: u16) {
        self.checksum = self
            .checksum
            .wrapping_mul(FACTOR)
            .wrapping_add(u32::from(number));
    }

    fn count(&mut self, event: Shown) {
        match event {
            Shown::Given(_) => self.arrivals = self.arrivals.saturating_add(1),
            Shown::Enter(_) => self.enters = self.enters.saturating_add(1),
            Shown::In(..) => self.ins = self.ins.saturating_add(1),
            Shown::Fault(_) => self.faults = self.faults.saturating_add(1),
            Shown::Out(port, word) => {
                self.outs = self.outs.saturating_add(1);
                self.sum_up(port);
                self.sum_up(word);
            }
        }
    }
}

fn counts_of(events: &[Shown]) -> Counts {
    let mut counts = Counts::new();
    for event in events {
        counts.count(*event);
    }
    counts
}

fn event_text(alloc: Global, event: Option<Shown>) -> Result<String, NoMemory> {
    match event {
        Some(event) => Ok(format!(in alloc; "{event:?}")?),
        None => Ok("nothing".to_string(alloc)?),
    }
}

fn verdict_text(alloc: Global, verdict: Verdict) -> Result<String, NoMemory> {
    match verdict {
        Verdict::Same => Ok("same".to_string(alloc)?),
        Verdict::BadMove(place) => Ok(format!(in alloc; "bad move {place}")?),
        Verdict::Differs(place, traced, shown) => {
            let traced = event_text(alloc, traced)?;
            let shown = event_text(alloc, shown)?;
            Ok(format!(in alloc; "event {place}: {traced} in the trace, {shown} in the run")?)
        }
    }
}

/// What a trace shows, and the verdict on it.
pub fn row_of(alloc: Global, trace: &MoteTrace, verdict: Verdict) -> Result<String, NoMemory> {
    let counts = counts_of(&trace.events);
    let report = trace.report.as_str();
    let arrivals = counts.arrivals;
    let enters = counts.enters;
    let ins = counts.ins;
    let outs = counts.outs;
    let faults = counts.faults;
    let checksum = counts.checksum;
    let text = verdict_text(alloc, verdict)?;
    Ok(format!(in alloc;
        "{report} arrivals {arrivals} enters {enters} ins {ins} outs {outs} faults {faults} checksum {checksum} {text}"
    )?)
}
