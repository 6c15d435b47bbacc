//! The files that wait to be read.

ghost use Rattle.std.specs.Prelude.{◌≡◌, ◌++◌, OnOk, reverse};

use crate::opener::Need;
use nm_base::NoMemory;

/// Puts the files on the stack, the first on top.
pub fn push_all(waiting: &mut Vec<Need>, mut needs: Vec<Need>) -> Result<(), NoMemory>
    ensures { OnOk result (reverse waiting.new.items ≡ needs.items ++ reverse waiting.old.items) }
{
    while let Some(need) = needs.pop() {
        waiting.push(need)?;
    }
    Ok(())
}
