//! Numbers of bodies and tasks.

ghost use Rattle.std.specs.Prelude.{◌≡◌, ◌+◌, IfOk};

use nm_base::NoMemory;

/// The number so many places on; too many bodies for their numbers are want of memory, too.
pub fn plus(number: u32, count: u32) -> Result<u32, NoMemory>
    ensures { IfOk result (λ n. n ≡ number + count) }
{
    number.checked_add(count).ok_or(NoMemory)
}
