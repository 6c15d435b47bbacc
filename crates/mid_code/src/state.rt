//! A state of the open machine.

use nm_base::List;

/// A call: its function, the place of its next instruction, its values and the bytes of its frame.
#[derive(Debug, Drop)]
pub struct MidCall {
    pub f: u32,
    pub at: u32,
    pub values: List<u16>,
    pub frame: List<u8>,
}

/// The calls that are open. The innermost stands last; there is none once the root has returned or faulted.
#[derive(Debug, Drop)]
pub struct MidState {
    pub calls: List<MidCall>,
}
