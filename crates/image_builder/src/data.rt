//! The bytes of data.

ghost use Rattle.std.specs.Prelude.{◌≡◌, ◌+◌, ◌≤◌, IfOk, ◌∷◌, []};
ghost use Rattle.nesc_core.specs.View.{program_of};
ghost use Rattle.nesc_core.specs.Weights.{objects_end};
ghost use Rattle.nesc_core.specs.WellFormed.{IsWellFormed};
ghost use Rattle.image_code.specs.Code.{data_bytes};

use nesc_core::{Layouts, Program};
use nm_base::{NoMemory, RAM_START};
use std::alloc::Global;

// The address behind the last object.
fn objects_end(alloc: Global, p: &Program) -> Result<u32, NoMemory>
    requires { IsWellFormed (program_of p.now) }
    ensures { IfOk result (λ end. end ≡ objects_end (program_of p.now)) }
{
    let [.., last] = p.objects.as_slice() else {
        return Ok(u32::from(RAM_START));
    };
    let layouts = Layouts::new(alloc, &p.structs)?;
    Ok(u32::from(last.addr) + layouts.size(&last.ty))
}

/// The bytes of a program's objects, an even number: the stack's end is even.
pub fn data_bytes(alloc: Global, p: &Program) -> Result<u32, NoMemory>
    requires { IsWellFormed (program_of p.now) }
    ensures { IfOk result (λ bytes. bytes ≡ data_bytes (program_of p.now)) }
{
    let bytes = objects_end(alloc, p)? - u32::from(RAM_START);
    Ok(bytes + bytes % 2)
}
