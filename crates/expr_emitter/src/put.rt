//! Instructions one behind the other.

ghost use Rattle.std.specs.Prelude.{◌≡◌, ◌∷◌, [], ◌++◌, ◌+◌, ◌<◌, ◌^◌, IfOk, OnOk};
ghost use Rattle.lower_expr.specs.Pieces as pieces;

use mid_code::Mid;
use nm_base::NoMemory;
use std::alloc::Global;

/// One more instruction.
pub fn put(code: &mut Vec<Mid>, instr: Mid) -> Result<(), NoMemory>
    ensures { OnOk result (code.new.items ≡ code.old.items ++ instr ∷ []) }
{
    code.push(instr)?;
    Ok(())
}

/// The values of a number at `r`, behind others.
pub(crate) fn push_values(values: &mut Vec<u32>, wide: bool, r: u32) -> Result<(), NoMemory>
    requires { r + 1 < 2 ^ 32 }
    ensures { OnOk result (values.new.items ≡ values.old.items ++ pieces.values_at wide r) }
{
    values.push(r)?;
    if wide {
        values.push(r + 1)?;
        Ok(())
    } else {
        Ok(())
    }
}

/// The values of a number at `r`.
pub(crate) fn values_at(alloc: Global, wide: bool, r: u32) -> Result<Vec<u32>, NoMemory>
    requires { r + 1 < 2 ^ 32 }
    ensures { IfOk result (λ v. v.items ≡ pieces.values_at wide r) }
{
    let mut values = Vec::new(alloc);
    push_values(&mut values, wide, r)?;
    Ok(values)
}
