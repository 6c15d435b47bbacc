//! What the lines of a trace tell.

use mote_devices::Shown;

/// What was shown in a slot.
#[derive(Clone, Copy, Debug, PartialEq, Eq)]
pub struct Event {
    pub slot: u32,
    pub shown: Shown,
}

/// How a mote's run ended: its slots, the instructions among them, the least SP after any of them, and whether the
/// processor is off.
#[derive(Clone, Copy, Debug, PartialEq, Eq)]
pub struct End {
    pub slots: u32,
    pub ran: u32,
    pub least: u16,
    pub off: bool,
}
