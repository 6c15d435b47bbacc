//! What making a kernel gives.

use nesc_core::Program;
use nm_base::NoMemory;

/// A program that keeps its pending tasks as a list in bytes, and the numbers of its two new bodies: `queue` puts a task last in the list and
/// answers 0, or 5 where it waits already, and `pop` takes the first task, or gives 255 where there is none.
#[derive(Drop)]
pub struct Queued {
    pub program: Program,
    pub queue: u32,
    pub pop: u32,
}

/// Why a program has no kernel: want of memory, more than 254 tasks, 2^32 objects and more, 2^32 - 1 bodies and more, or objects that end
/// behind 60,000 bytes.
#[derive(Clone, Copy, PartialEq, Eq, Debug)]
pub enum NoKernel {
    Memory,
    Tasks,
    Objects,
    Bodies,
    Room,
}

impl From<NoMemory> for NoKernel {
    ghost use Rattle.std.specs.Prelude.{◌≡◌};
    ghost use Rattle.kernel_code.specs.declared.queued.NoKernel.TheVariants.{Memory};

    ghost from_gives = { λ _ e. e ≡ Memory };

    fn from(_error: NoMemory) -> NoKernel {
        NoKernel::Memory
    }
}
