//! The trace in what a call writes.

use mote_devices::Shown;
use mote_text::read_event;
use nm_base::NoMemory;
use std::alloc::Global;

/// What a call says before its image, the events of its trace, and whether the processor sleeps at the end.
#[derive(PartialEq, Eq, Drop)]
pub struct MoteTrace {
    pub report: String,
    pub events: Vec<Shown>,
    pub is_asleep: bool,
}

impl MoteTrace {
    /// The trace in a text; without one it has no events.
    pub fn read(alloc: Global, text: &str) -> Result<MoteTrace, NoMemory> {
        let mut trace = MoteTrace {
            report: text.lines().next().unwrap_or("").to_string(alloc)?,
            events: Vec::new(alloc),
            is_asleep: false,
        };
        let mut is_image = true;
        for line in text.lines() {
            if !is_image {
                trace.take(line)?;
            }
            is_image = is_image && line != "trace";
        }
        Ok(trace)
    }

    fn take(&mut self, line: &str) -> Result<(), NoMemory> {
        match read_event(line.as_bytes()) {
            Some(event) => self.events.push(event.shown)?,
            None => self.is_asleep = line.ends_with("off 1"),
        }
        Ok(())
    }
}
