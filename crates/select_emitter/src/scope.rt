//! Where instructions are selected.

use crate::frames::Frame;
use mid_code::{MidCode, MidFn};

/// Where an instruction is selected: in a function of a program, whose values lie as this frame says. `frames` has the frame of
/// each function.
#[derive(Clone, Copy)]
pub(crate) struct Scope<'a> {
    pub(crate) code: &'a MidCode,
    pub(crate) frames: &'a [Frame],
    pub(crate) function: &'a MidFn,
    pub(crate) frame: &'a Frame,
}
