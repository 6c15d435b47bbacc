//! Functions of the middle code.

use crate::instr::Mid;
use nm_base::List;

/// A function: how many values it has, which of them are its parameters, in order, the bytes of its frame, and its code.
#[derive(Debug, Drop)]
pub struct MidFn {
    pub values: u32,
    pub params: List<u32>,
    pub frame: u16,
    pub code: List<Mid>,
}

/// Where parts of one type lie: their size in bytes, and for each run of adjacent parts its first address and how many there are.
#[derive(Debug, Drop)]
pub struct Check {
    pub size: u16,
    pub runs: List<(u16, u16)>,
}

/// The functions of a program, one for each body, and the checks of its pointers.
#[derive(Debug, Drop)]
pub struct MidCode {
    pub fns: List<MidFn>,
    pub checks: List<Check>,
}
