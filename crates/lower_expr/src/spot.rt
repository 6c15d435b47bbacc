//! Where the locals of a body are held.

/// The values that hold a number: its low half, and its high half where it has 32 bits. None where there is no number.
#[derive(Clone, Copy, Debug, PartialEq, Eq)]
pub struct Regs {
    pub low: Option<u32>,
    pub high: Option<u32>,
}

/// Where a local is held: in values, or in the frame from a place on.
#[derive(Clone, Copy, Debug, PartialEq, Eq)]
pub enum Spot {
    Values(Regs),
    Frame(u16),
}
