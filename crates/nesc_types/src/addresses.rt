//! Addresses of objects.

ghost use Rattle.std.specs.Prelude.{◌≡◌, ◌≤◌, All, IfOk};
ghost use Rattle.nm_base.specs.declared.memory_map.TheConstants.{RAM_START};
ghost use Rattle.nesc_types.specs.Addresses as spec;
ghost use Rattle.nesc_types.specs.Addresses.{LiesEven, taken, addresses};

use nm_base::{NoMemory, RAM_START};
use std::alloc::Global;

fn evened(size: u32) -> u32
    requires { size ≤ 60000 }
    ensures { result ≡ spec.evened size }
{
    size + size % 2
}

/// The address of each object of these sizes in bytes, from the start of RAM upwards, each even.
pub fn place(alloc: Global, sizes: &[u32]) -> Result<Vec<u32>, NoMemory>
    requires { taken sizes.now ≤ 60000 }
    ensures addresses { IfOk result (λ places. places.items ≡ addresses RAM_START sizes.now) }
    ensures lie { IfOk result (λ places. All LiesEven places.items) }
{
    let mut places = Vec::new(alloc);
    let mut next = u32::from(RAM_START);
    for size in sizes {
        places.push(next)?;
        next += evened(*size);
    }
    Ok(places)
}
