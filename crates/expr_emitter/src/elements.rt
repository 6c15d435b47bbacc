//! Elements of arrays, and pointers that move.

ghost use Rattle.std.specs.Prelude.{◌≡◌, [], ◌∷◌, ◌++◌, ◌+◌, ◌%◌, ◌<◌, ◌≤◌, ◌^◌, true, false, OnOk};
ghost use Rattle.lower_expr.specs.Pieces.{bound_code, distance_code, element_code, index_bound, offset_code, scaled_code};
ghost use Rattle.mid_code.specs.Help as help;
ghost use Rattle.mid_code.specs.declared.instr.Mid.TheVariants as mid;

use crate::numbers::is_wide;
use crate::put::put;
use mid_code::{HelpOp, Mid, Op, Test, help_number};
use nm_base::{IntType, List, NoMemory};
use std::alloc::Global;

// The word at r and the one behind, by a helper, to r.
fn put_with_size(
    alloc: Global,
    code: &mut Vec<Mid>,
    o: HelpOp,
    t: IntType,
    size: u32,
    r: u32,
) -> Result<(), NoMemory>
    requires { r + 2 < 2 ^ 32 }
    ensures { OnOk result (code.new.items ≡ code.old.items ++ mid.Set (r + 2) (size % 65536) ∷ mid.Help (help.number_of_help t o) (r ∷ (r + 2) ∷ []) (r ∷ []) ∷ []) }
{
    put(code, Mid::Set(r + 2, (size % 65_536) as u16))?;
    let passed = Vec::from_array(alloc, [r, r + 2])?;
    let given = Vec::from_array(alloc, [r])?;
    put(
        code,
        Mid::Help(help_number(t, o), List::new(passed), List::new(given)),
    )
}

/// The word at `r` times a size.
pub(crate) fn put_scaled(
    alloc: Global,
    code: &mut Vec<Mid>,
    size: u32,
    r: u32,
) -> Result<(), NoMemory>
    requires { r + 2 < 2 ^ 32 }
    ensures { OnOk result (code.new.items ≡ code.old.items ++ scaled_code size r) }
{
    if size == 1 {
        Ok(())
    } else if size == 2 {
        put(code, Mid::Bin(Op::Add, r, r, r))
    } else if size == 4 {
        put(code, Mid::Bin(Op::Add, r, r, r))?;
        put(code, Mid::Bin(Op::Add, r, r, r))
    } else {
        put_with_size(alloc, code, HelpOp::Mul, IntType::U16, size, r)
    }
}

fn put_wide_bound(code: &mut Vec<Mid>, bound: u32, r: u32, l: u32) -> Result<(), NoMemory>
    requires values { r + 4 < 2 ^ 32 }
    requires labels { l + 1 < 2 ^ 32 }
    ensures { OnOk result (code.new.items ≡ code.old.items ++ bound_code true bound r l) }
{
    put(code, Mid::Set(r + 4, (bound / 65_536) as u16))?;
    put(code, Mid::Branch(Test::LtU, r + 3, r + 4, l))?;
    put(code, Mid::Branch(Test::Ne, r + 3, r + 4, l + 1))?;
    put(code, Mid::Set(r + 4, (bound % 65_536) as u16))?;
    put(code, Mid::Branch(Test::LtU, r + 2, r + 4, l))?;
    put(code, Mid::Label(l + 1))?;
    put(code, Mid::Fault(1))?;
    put(code, Mid::Label(l))
}

fn put_narrow_bound(code: &mut Vec<Mid>, bound: u32, r: u32, l: u32) -> Result<(), NoMemory>
    requires values { r + 4 < 2 ^ 32 }
    requires word { bound ≤ 65536 }
    ensures { OnOk result (code.new.items ≡ code.old.items ++ bound_code false bound r l) }
{
    if bound == 65_536 {
        Ok(())
    } else {
        put(code, Mid::Set(r + 4, bound as u16))?;
        put(code, Mid::Branch(Test::LtU, r + 2, r + 4, l))?;
        put(code, Mid::Fault(1))?;
        put(code, Mid::Label(l))
    }
}

// An index at r + 2 that is negative or not below the count is fault 1; two labels.
fn put_bound(code: &mut Vec<Mid>, t: IntType, count: u32, r: u32, l: u32) -> Result<(), NoMemory>
    requires values { r + 4 < 2 ^ 32 }
    requires labels { l + 1 < 2 ^ 32 }
    ensures { OnOk result (code.new.items ≡ code.old.items ++ bound_code (help.is_wide t) (index_bound t count) r l) }
{
    match t {
        IntType::I8 => put_narrow_bound(code, count.min(32_768), r, l),
        IntType::U8 => put_narrow_bound(code, count.min(65_536), r, l),
        IntType::I16 => put_narrow_bound(code, count.min(32_768), r, l),
        IntType::U16 => put_narrow_bound(code, count.min(65_536), r, l),
        IntType::I32 => put_wide_bound(code, count.min(2_147_483_648), r, l),
        IntType::U32 => put_wide_bound(code, count, r, l),
    }
}

/// The place of an element, of an array at `r`; two labels.
pub(crate) fn put_element(
    alloc: Global,
    code: &mut Vec<Mid>,
    t: IntType,
    count: u32,
    size: u32,
    r: u32,
    l: u32,
) -> Result<(), NoMemory>
    requires values { r + 4 < 2 ^ 32 }
    requires labels { l + 1 < 2 ^ 32 }
    ensures { OnOk result (code.new.items ≡ code.old.items ++ element_code t count size r l) }
{
    put_bound(code, t, count, r, l)?;
    put_offset(alloc, code, size, r)
}

/// The pointer at `r` moved by the number at `r + 2` of elements of this size.
pub(crate) fn put_offset(
    alloc: Global,
    code: &mut Vec<Mid>,
    size: u32,
    r: u32,
) -> Result<(), NoMemory>
    requires { r + 4 < 2 ^ 32 }
    ensures { OnOk result (code.new.items ≡ code.old.items ++ offset_code size r) }
{
    put_scaled(alloc, code, size, r + 2)?;
    put(code, Mid::Bin(Op::Add, r, r, r + 2))
}

/// How many elements of this size the pointer at `r` lies behind the one at `r + 2`.
pub(crate) fn put_distance(
    alloc: Global,
    code: &mut Vec<Mid>,
    size: u32,
    r: u32,
) -> Result<(), NoMemory>
    requires { r + 2 < 2 ^ 32 }
    ensures { OnOk result (code.new.items ≡ code.old.items ++ distance_code size r) }
{
    put(code, Mid::Bin(Op::Sub, r, r, r + 2))?;
    if size == 1 {
        Ok(())
    } else {
        put_with_size(alloc, code, HelpOp::Div, IntType::I16, size, r)
    }
}
