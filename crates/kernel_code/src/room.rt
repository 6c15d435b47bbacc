//! Where the objects of a program end.

ghost use Rattle.std.specs.Prelude.{◌≡◌, ◌+◌, IfOk, min};
ghost use Rattle.nesc_core.specs.View.{program_of};
ghost use Rattle.nesc_core.specs.Weights.{objects_end};
ghost use Rattle.kernel_code.specs.Sizes.{most};

use crate::layouts::MOST;
use crate::structs::layout;
use nesc_core::{Layout, Program};
use nm_base::{NoMemory, RAM_START};
use std::alloc::Global;

fn end_behind(addr: u16, layout: Layout) -> u32
    ensures { result ≡ min (addr + layout.size) most }
{
    let end = u64::from(addr) + u64::from(layout.size);
    end.min(u64::from(MOST)) as u32
}

/// Where the objects end, or 65,536 where they end behind that.
pub(crate) fn objects_end(alloc: Global, p: &Program) -> Result<u32, NoMemory>
    ensures { IfOk result (λ end. end ≡ min (objects_end (program_of p.now)) most) }
{
    let [.., last] = p.objects.as_slice() else {
        return Ok(u32::from(RAM_START));
    };
    let layout = layout(alloc, &p.structs, &last.ty)?;
    Ok(end_behind(last.addr, layout))
}
