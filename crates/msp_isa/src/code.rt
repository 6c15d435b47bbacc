//! The code of functions before it has addresses: instructions, labels, jumps and calls.

use crate::instr::{Cond, Instr};
use nm_base::List;

/// A piece of a function's code. `Jump` names a label of the same function; `CallFn` calls the function at a place of the
/// list of all functions, and `AddrOf` puts its address into a register.
#[derive(Clone, Copy, Debug, PartialEq, Eq)]
pub enum Item {
    Is(Instr),
    Label(u32),
    Jump(Cond, u32),
    CallFn(u32),
    AddrOf(u32, u8),
}

/// The code of a function, and the functions that it calls. `frame` is the greatest number of bytes that its own
/// instructions hold on the stack, without the return addresses of its calls. What a caller puts on the stack for a call
/// counts in the function called, and the four bytes of an acceptance in the code of its line.
#[derive(Debug, Drop)]
pub struct CodeFn {
    pub frame: u16,
    pub items: List<Item>,
    pub calls: List<u32>,
}
