//! Constants, moves, conversions and tests.

ghost use Rattle.std.specs.Prelude.{◌≡◌, [], ◌∷◌, ◌++◌, ◌+◌, ◌<◌, ◌^◌, ℕ, OnOk};
ghost use Rattle.lower_expr.specs.Pieces.{const_code, convert_code, fit_code, high_code, move_code, truth_code, unary_code, widen_code, zero_code};
ghost use Rattle.lower_expr.specs.Held as held;
ghost use Rattle.mid_code.specs.Help as help;
ghost use Rattle.mid_code.specs.declared.instr.Mid.TheVariants as mid;
ghost use Rattle.nesc_core.specs.declared.tree.UnOp.TheVariants as un;

use crate::numbers::{high, is_signed, is_wide, low};
use crate::put::put;
use mid_code::{Mid, Op, Test};
use nesc_core::UnOp;
use nm_base::{IntType, NoMemory};

/// A number to `r`.
pub fn put_const(code: &mut Vec<Mid>, t: IntType, x: i64, r: u32) -> Result<(), NoMemory>
    requires { r + 1 < 2 ^ 32 }
    ensures { OnOk result (code.new.items ≡ code.old.items ++ const_code t x r) }
{
    if is_wide(t) {
        put(code, Mid::Set(r, low(x)))?;
        put(code, Mid::Set(r + 1, high(x)))
    } else {
        put(code, Mid::Set(r, low(x)))
    }
}

/// A number from `r` to `d`.
pub(crate) fn put_move(code: &mut Vec<Mid>, wide: bool, d: u32, r: u32) -> Result<(), NoMemory>
    requires to { d + 1 < 2 ^ 32 }
    requires from { r + 1 < 2 ^ 32 }
    ensures { OnOk result (code.new.items ≡ code.old.items ++ move_code wide d r) }
{
    if wide {
        put(code, Mid::Move(d, r))?;
        put(code, Mid::Move(d + 1, r + 1))
    } else {
        put(code, Mid::Move(d, r))
    }
}

/// The number of 8 bits that the low byte stands for.
pub(crate) fn put_fit(code: &mut Vec<Mid>, t: IntType, r: u32) -> Result<(), NoMemory>
    requires { r + 1 < 2 ^ 32 }
    ensures { OnOk result (code.new.items ≡ code.old.items ++ fit_code t r) }
{
    match t {
        IntType::I8 => {
            put(code, Mid::Set(r + 1, 255))?;
            put(code, Mid::Bin(Op::And, r, r, r + 1))?;
            put(code, Mid::Set(r + 1, 128))?;
            put(code, Mid::Bin(Op::Xor, r, r, r + 1))?;
            put(code, Mid::Bin(Op::Sub, r, r, r + 1))
        }
        IntType::U8 => {
            put(code, Mid::Set(r + 1, 255))?;
            put(code, Mid::Bin(Op::And, r, r, r + 1))
        }
        IntType::I16 | IntType::U16 | IntType::I32 | IntType::U32 => Ok(()),
    }
}

// The high half of a number of 16 bits.
fn put_widen(code: &mut Vec<Mid>, signed: bool, r: u32, l: u32) -> Result<(), NoMemory>
    requires { r + 1 < 2 ^ 32 }
    ensures { OnOk result (code.new.items ≡ code.old.items ++ widen_code signed r l) }
{
    if signed {
        put(code, Mid::Set(r + 1, 0))?;
        put(code, Mid::Branch(Test::Le, r + 1, r, l))?;
        put(code, Mid::Set(r + 1, 65_535))?;
        put(code, Mid::Label(l))
    } else {
        put(code, Mid::Set(r + 1, 0))
    }
}

fn put_high(code: &mut Vec<Mid>, from: IntType, to: IntType, r: u32, l: u32) -> Result<(), NoMemory>
    requires { r + 1 < 2 ^ 32 }
    ensures { OnOk result (code.new.items ≡ code.old.items ++ high_code (help.is_wide from) (help.is_wide to) (held.is_signed from) r l) }
{
    if is_wide(from) {
        Ok(())
    } else if is_wide(to) {
        put_widen(code, is_signed(from), r, l)
    } else {
        Ok(())
    }
}

/// A number at `r` as one of another type; one label.
pub(crate) fn put_convert(
    code: &mut Vec<Mid>,
    from: IntType,
    to: IntType,
    r: u32,
    l: u32,
) -> Result<(), NoMemory>
    requires { r + 1 < 2 ^ 32 }
    ensures { OnOk result (code.new.items ≡ code.old.items ++ convert_code from to r l) }
{
    put_fit(code, to, r)?;
    put_high(code, from, to, r, l)
}

/// 1 where the label was gone to, else 0; two labels.
pub(crate) fn put_truth(code: &mut Vec<Mid>, r: u32, l: u32) -> Result<(), NoMemory>
    requires { l + 1 < 2 ^ 32 }
    ensures { OnOk result (code.new.items ≡ code.old.items ++ truth_code r l) }
{
    put(code, Mid::Set(r, 0))?;
    put(code, Mid::Jump(l + 1))?;
    put(code, Mid::Label(l))?;
    put(code, Mid::Set(r, 1))?;
    put(code, Mid::Label(l + 1))
}

/// 0 where the label was gone to, else 1; two labels.
pub(crate) fn put_falsity(code: &mut Vec<Mid>, r: u32, l: u32) -> Result<(), NoMemory>
    requires { l + 1 < 2 ^ 32 }
    ensures { OnOk result (code.new.items ≡ code.old.items ++ mid.Set r 1 ∷ mid.Jump (l + 1) ∷ mid.Label l ∷ mid.Set r 0 ∷ mid.Label (l + 1) ∷ []) }
{
    put(code, Mid::Set(r, 1))?;
    put(code, Mid::Jump(l + 1))?;
    put(code, Mid::Label(l))?;
    put(code, Mid::Set(r, 0))?;
    put(code, Mid::Label(l + 1))
}

/// A number at `r` compared with 0, which goes to the label.
pub fn put_zero(code: &mut Vec<Mid>, test: Test, wide: bool, r: u32, l: u32) -> Result<(), NoMemory>
    requires { r + 2 < 2 ^ 32 }
    ensures { OnOk result (code.new.items ≡ code.old.items ++ zero_code test wide r l) }
{
    if wide {
        put(code, Mid::Bin(Op::Or, r, r, r + 1))?;
        put(code, Mid::Set(r + 2, 0))?;
        put(code, Mid::Branch(test, r, r + 2, l))
    } else {
        put(code, Mid::Set(r + 2, 0))?;
        put(code, Mid::Branch(test, r, r + 2, l))
    }
}

fn put_negated(code: &mut Vec<Mid>, wide: bool, r: u32) -> Result<(), NoMemory>
    requires { r + 3 < 2 ^ 32 }
    ensures { OnOk result ((l : ℕ) → code.new.items ≡ code.old.items ++ unary_code un.Neg wide r l) }
{
    if wide {
        put(code, Mid::Set(r + 2, 0))?;
        put(code, Mid::Carry(Op::Sub, r + 3, r + 2, r))?;
        put(code, Mid::Bin(Op::Sub, r, r + 2, r))?;
        put(code, Mid::Bin(Op::Sub, r + 1, r + 2, r + 1))?;
        put(code, Mid::Bin(Op::Sub, r + 1, r + 1, r + 3))
    } else {
        put(code, Mid::Set(r + 2, 0))?;
        put(code, Mid::Bin(Op::Sub, r, r + 2, r))
    }
}

fn put_inverted(code: &mut Vec<Mid>, wide: bool, r: u32) -> Result<(), NoMemory>
    requires { r + 2 < 2 ^ 32 }
    ensures { OnOk result ((l : ℕ) → code.new.items ≡ code.old.items ++ unary_code un.Not wide r l) }
{
    if wide {
        put(code, Mid::Set(r + 2, 65_535))?;
        put(code, Mid::Bin(Op::Xor, r, r, r + 2))?;
        put(code, Mid::Bin(Op::Xor, r + 1, r + 1, r + 2))
    } else {
        put(code, Mid::Set(r + 2, 65_535))?;
        put(code, Mid::Bin(Op::Xor, r, r, r + 2))
    }
}

/// An operator on a number at `r`; two labels.
pub(crate) fn put_unary(
    code: &mut Vec<Mid>,
    op: UnOp,
    wide: bool,
    r: u32,
    l: u32,
) -> Result<(), NoMemory>
    requires values { r + 3 < 2 ^ 32 }
    requires labels { l + 1 < 2 ^ 32 }
    ensures { OnOk result (code.new.items ≡ code.old.items ++ unary_code op wide r l) }
{
    match op {
        UnOp::Neg => put_negated(code, wide, r),
        UnOp::Not => put_inverted(code, wide, r),
        UnOp::IsZero => {
            put_zero(code, Test::Eq, wide, r, l)?;
            put_truth(code, r, l)
        }
    }
}
