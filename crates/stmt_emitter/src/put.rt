//! Instructions one behind the other.

ghost use Rattle.std.specs.Prelude.{◌≡◌, ◌∷◌, [], ◌++◌, ◌+◌, ◌<◌, ◌^◌, OnOk, pos};
ghost use Rattle.lower_stmt.specs.Code.{nothing_code, same_code};
ghost use Rattle.nesc_core.specs.PlaceTypes.{type_in};
ghost use Rattle.std.specs.Prelude.{option_copied};

use expr_emitter::conversions::put_const;
use expr_emitter::put::put;
use expr_emitter::types::{is_void, number_of};
use mid_code::{Mid, Op, Test};
use nesc_core::CoreType;
use nm_base::NoMemory;

/// More code.
pub(crate) fn put_all(code: &mut Vec<Mid>, mut more: Vec<Mid>) -> Result<(), NoMemory>
    ensures { OnOk result (code.new.items ≡ code.old.items ++ more.items) }
{
    code.append(&mut more)?;
    Ok(())
}

/// 0 of a type to `r`.
pub(crate) fn put_nothing(code: &mut Vec<Mid>, t: Option<&CoreType>, r: u32) -> Result<(), NoMemory>
    requires { r + 1 < 2 ^ 32 }
    ensures { OnOk result (code.new.items ≡ code.old.items ++ nothing_code (type_in (option_copied t.entry)) r) }
{
    if is_void(t) {
        Ok(())
    } else {
        put_const(code, number_of(t), 0, r)
    }
}

/// Where the number at `r` is the one behind it, goes to the label.
pub(crate) fn put_same(code: &mut Vec<Mid>, wide: bool, r: u32, l: u32) -> Result<(), NoMemory>
    requires { r + 3 < 2 ^ 32 }
    ensures { OnOk result (code.new.items ≡ code.old.items ++ same_code wide r l) }
{
    if wide {
        put(code, Mid::Bin(Op::Xor, r + 2, r, r + 2))?;
        put(code, Mid::Bin(Op::Xor, r + 3, r + 1, r + 3))?;
        put(code, Mid::Bin(Op::Or, r + 2, r + 2, r + 3))?;
        put(code, Mid::Set(r + 3, 0))?;
        put(code, Mid::Branch(Test::Eq, r + 2, r + 3, l))
    } else {
        put(code, Mid::Branch(Test::Eq, r, r + 2, l))
    }
}
