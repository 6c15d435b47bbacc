//! The bound of the stack: the longest path of calls from reset, and on top of it the longest one from a line.

ghost use Rattle.std.specs.Prelude.{◌≡◌, ℕ, ◌<◌, IfOk, length};
ghost use Rattle.msp_layout.specs.Depth.{HasNoCycle, Names, calls_of, IsStack};
ghost use Rattle.msp_layout.specs.Laid.{told};

use crate::depth::depths;
use msp_isa::CodeFn;
use nm_base::NoMemory;
use std::alloc::Global;

/// The bytes of the stack; the last number of 32 bits where they are more.
pub(crate) fn stack_bytes(
    alloc: Global,
    code: &[CodeFn],
    lines: &[u32; 8],
    reset: u32,
) -> Result<u32, NoMemory>
    requires callees { (f g : ℕ) → f < length code.now → Names (calls_of code.now f) g → g < length code.now }
    requires no_cycle { HasNoCycle code.now }
    requires lines { (f : ℕ) → Names lines.now f → f < length code.now }
    requires reset { reset < length code.now }
    ensures { IfOk result (λ n. (stack : ℕ) × IsStack code.now lines.now reset stack × (n ≡ told stack)) }
{
    let visits = depths(alloc, code)?;
    let mut handlers = visits[lines[0] as usize].depth();
    for line in lines {
        handlers = handlers.max(visits[*line as usize].depth());
    }
    Ok(visits[reset as usize].depth().saturating_add(handlers))
}
