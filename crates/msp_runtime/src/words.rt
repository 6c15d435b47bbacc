//! The pieces of routines of 16 bits, with x in R12, and y or a count in R13.

ghost use Rattle.std.specs.Prelude.{◌≡◌, ◌++◌, OnOk, map, true, false};
ghost use Rattle.msp_runtime.specs.Code.{items_from};
ghost use Rattle.msp_runtime.specs.Pieces.{shifted};
ghost use Rattle.msp_runtime.specs.Routines as routines;

use crate::instructions::{DROP, jump, push, restore, two};
use crate::pieces::put;
use msp_isa::{Cond, Instr, Item, Op1, Op2, Operand};
use nm_base::NoMemory;

/// x times 2 to the power of the count, in R12.
pub(crate) fn put_shift_left(items: &mut Vec<Item>) -> Result<(), NoMemory>
    ensures { OnOk result (items.new.items ≡ items.old.items ++ items_from routines.shift_left 0) }
{
    put(
        items,
        0,
        &[
            two!(Cmp, number 16, 13),
            jump!(Jnc, 0),
            two!(Mov, made 0, 12),
            two!(Mov, made 0, 13),
            Item::Label(0),
            two!(Cmp, made 0, 13),
            jump!(Jeq, 1),
            Item::Label(2),
            two!(Add, reg 12, 12),
            two!(Sub, made 1, 13),
            jump!(Jne, 2),
            Item::Label(1),
        ],
    )
}

/// What lies above x in R14, and x, go left by what 16 is more than the count.
pub(crate) fn put_right_turns(items: &mut Vec<Item>, first: u32) -> Result<(), NoMemory>
    ensures { OnOk result (items.new.items ≡ items.old.items ++ map (shifted first) (items_from routines.right_turns 0)) }
{
    put(
        items,
        first,
        &[
            two!(Cmp, number 16, 13),
            jump!(Jnc, 0),
            two!(Mov, number 16, 13),
            Item::Label(0),
            two!(Mov, number 16, 15),
            two!(Sub, reg 13, 15),
            two!(Cmp, made 0, 15),
            jump!(Jeq, 1),
            Item::Label(2),
            two!(Add, reg 12, 12),
            two!(Addc, reg 14, 14),
            two!(Sub, made 1, 15),
            jump!(Jne, 2),
            Item::Label(1),
            two!(Mov, reg 14, 12),
        ],
    )
}

/// x shifted right, in R12.
pub(crate) fn put_shift_right(items: &mut Vec<Item>) -> Result<(), NoMemory>
    ensures { OnOk result (items.new.items ≡ items.old.items ++ items_from (routines.shift_right false) 0) }
{
    put(items, 0, &[two!(Mov, made 0, 14)])?;
    put_right_turns(items, 0)
}

/// x with its sign shifted right, in R12.
pub(crate) fn put_shift_right_signed(items: &mut Vec<Item>) -> Result<(), NoMemory>
    ensures { OnOk result (items.new.items ≡ items.old.items ++ items_from (routines.shift_right true) 0) }
{
    put(
        items,
        0,
        &[
            two!(Mov, made 0, 14),
            two!(Cmp, number 0x8000, 12),
            jump!(Jnc, 0),
            two!(Mov, made 0xFFFF, 14),
            Item::Label(0),
        ],
    )?;
    put_right_turns(items, 1)
}

/// x times y, in R12.
pub(crate) fn put_multiply(items: &mut Vec<Item>) -> Result<(), NoMemory>
    ensures { OnOk result (items.new.items ≡ items.old.items ++ items_from routines.multiply 0) }
{
    put(
        items,
        0,
        &[
            two!(Mov, reg 12, 14),
            two!(Mov, made 0, 12),
            two!(Mov, number 16, 15),
            two!(Cmp, made 0, 15),
            jump!(Jeq, 0),
            Item::Label(1),
            two!(Add, reg 12, 12),
            two!(Add, reg 13, 13),
            jump!(Jnc, 2),
            two!(Add, reg 14, 12),
            Item::Label(2),
            two!(Sub, made 1, 15),
            jump!(Jne, 1),
            Item::Label(0),
        ],
    )
}

/// The quotient of R12 by R13 in R12, and the remainder in R14; 0 and 0 where R13 is 0. Labels count from `first`.
///
/// Errors: `NoMemory` alone.
pub fn put_divide(items: &mut Vec<Item>, first: u32) -> Result<(), NoMemory>
    ensures { OnOk result (items.new.items ≡ items.old.items ++ map (shifted first) (items_from routines.divide 0)) }
{
    put(
        items,
        first,
        &[
            two!(Cmp, made 1, 13),
            jump!(Jc, 0),
            two!(Mov, made 0, 12),
            two!(Mov, made 1, 13),
            Item::Label(0),
            two!(Mov, made 0, 14),
            two!(Mov, number 16, 15),
            two!(Cmp, made 0, 15),
            jump!(Jeq, 1),
            Item::Label(2),
            two!(Add, reg 12, 12),
            two!(Addc, reg 14, 14),
            jump!(Jc, 3),
            two!(Cmp, reg 13, 14),
            Item::Label(3),
            jump!(Jnc, 4),
            two!(Sub, reg 13, 14),
            two!(Add, made 1, 12),
            Item::Label(4),
            two!(Sub, made 1, 15),
            jump!(Jne, 2),
            Item::Label(1),
        ],
    )
}

/// x divided by y, in R12.
pub(crate) fn put_quotient(items: &mut Vec<Item>) -> Result<(), NoMemory>
    ensures { OnOk result (items.new.items ≡ items.old.items ++ items_from (routines.quotient false) 0) }
{
    put_divide(items, 0)?;
    Ok(())
}

/// x divided by y with their signs, in R12.
pub(crate) fn put_quotient_signed(items: &mut Vec<Item>) -> Result<(), NoMemory>
    ensures { OnOk result (items.new.items ≡ items.old.items ++ items_from (routines.quotient true) 0) }
{
    put(
        items,
        0,
        &[
            push!(11),
            two!(Mov, made 0, 11),
            two!(Cmp, number 0x8000, 12),
            jump!(Jnc, 0),
            two!(Mov, made 0, 15),
            two!(Sub, reg 12, 15),
            two!(Mov, reg 15, 12),
            two!(Add, made 1, 11),
            Item::Label(0),
            two!(Cmp, number 0x8000, 13),
            jump!(Jnc, 1),
            two!(Mov, made 0, 15),
            two!(Sub, reg 13, 15),
            two!(Mov, reg 15, 13),
            two!(Add, made 1, 11),
            Item::Label(1),
        ],
    )?;
    put_divide(items, 2)?;
    put(
        items,
        0,
        &[
            two!(Cmp, made 1, 11),
            jump!(Jne, 7),
            two!(Mov, made 0, 15),
            two!(Sub, reg 12, 15),
            two!(Mov, reg 15, 12),
            Item::Label(7),
            restore!(11),
            DROP,
        ],
    )
}

/// What remains of x, in R12.
pub(crate) fn put_remainder(items: &mut Vec<Item>) -> Result<(), NoMemory>
    ensures { OnOk result (items.new.items ≡ items.old.items ++ items_from (routines.remainder false) 0) }
{
    put_divide(items, 0)?;
    put(items, 0, &[two!(Mov, reg 14, 12)])
}

/// What remains of x, in R12, with the sign of x.
pub(crate) fn put_remainder_signed(items: &mut Vec<Item>) -> Result<(), NoMemory>
    ensures { OnOk result (items.new.items ≡ items.old.items ++ items_from (routines.remainder true) 0) }
{
    put(
        items,
        0,
        &[
            push!(11),
            two!(Mov, made 0, 11),
            two!(Cmp, number 0x8000, 12),
            jump!(Jnc, 0),
            two!(Mov, made 0, 15),
            two!(Sub, reg 12, 15),
            two!(Mov, reg 15, 12),
            two!(Add, made 1, 11),
            Item::Label(0),
            two!(Cmp, number 0x8000, 13),
            jump!(Jnc, 1),
            two!(Mov, made 0, 15),
            two!(Sub, reg 13, 15),
            two!(Mov, reg 15, 13),
            Item::Label(1),
        ],
    )?;
    put_divide(items, 2)?;
    put(
        items,
        0,
        &[
            two!(Mov, reg 14, 12),
            two!(Cmp, made 1, 11),
            jump!(Jne, 7),
            two!(Mov, made 0, 15),
            two!(Sub, reg 12, 15),
            two!(Mov, reg 15, 12),
            Item::Label(7),
            restore!(11),
            DROP,
        ],
    )
}

/// The low byte of R12.
pub(crate) fn put_low_byte(items: &mut Vec<Item>) -> Result<(), NoMemory>
    ensures { OnOk result (items.new.items ≡ items.old.items ++ items_from (routines.low_byte 12) 0) }
{
    put(items, 0, &[two!(And, number 255, 12)])
}

/// The low byte of x as a word.
pub(crate) fn put_extend_x(items: &mut Vec<Item>) -> Result<(), NoMemory>
    ensures { OnOk result (items.new.items ≡ items.old.items ++ items_from (routines.extend false 12) 0) }
{
    put(items, 0, &[two!(And, number 255, 12)])
}

/// The low byte of x with its sign as a word.
pub(crate) fn put_extend_x_signed(items: &mut Vec<Item>) -> Result<(), NoMemory>
    ensures { OnOk result (items.new.items ≡ items.old.items ++ items_from (routines.extend true 12) 0) }
{
    put(
        items,
        0,
        &[
            two!(Add, number 128, 12),
            two!(And, number 255, 12),
            two!(Sub, number 128, 12),
        ],
    )
}

/// The low byte of y as a word.
pub(crate) fn put_extend_y(items: &mut Vec<Item>) -> Result<(), NoMemory>
    ensures { OnOk result (items.new.items ≡ items.old.items ++ items_from (routines.extend false 13) 0) }
{
    put(items, 0, &[two!(And, number 255, 13)])
}

/// The low byte of y with its sign as a word.
pub(crate) fn put_extend_y_signed(items: &mut Vec<Item>) -> Result<(), NoMemory>
    ensures { OnOk result (items.new.items ≡ items.old.items ++ items_from (routines.extend true 13) 0) }
{
    put(
        items,
        0,
        &[
            two!(Add, number 128, 13),
            two!(And, number 255, 13),
            two!(Sub, number 128, 13),
        ],
    )
}
