//! The pieces of routines of 32 bits, with x in R12 and R13, and y in R14 and R15 or a count in R14.

ghost use Rattle.std.specs.Prelude.{◌≡◌, ◌++◌, OnOk, map, true, false};
ghost use Rattle.msp_runtime.specs.Code.{items_from};
ghost use Rattle.msp_runtime.specs.Pieces.{shifted, signed_end, signed_start};
ghost use Rattle.msp_runtime.specs.Routines as routines;

use crate::instructions::{DROP, jump, push, restore, two};
use crate::pieces::put;
use msp_isa::{Cond, Instr, Item, Op1, Op2, Operand};
use nm_base::NoMemory;

/// x times 2 to the power of the count, in R12 and R13.
pub(crate) fn put_shift_left_wide(items: &mut Vec<Item>) -> Result<(), NoMemory>
    ensures { OnOk result (items.new.items ≡ items.old.items ++ items_from routines.shift_left_wide 0) }
{
    put(
        items,
        0,
        &[
            two!(Cmp, number 32, 14),
            jump!(Jnc, 0),
            two!(Mov, made 0, 12),
            two!(Mov, made 0, 13),
            two!(Mov, made 0, 14),
            Item::Label(0),
            two!(Cmp, made 0, 14),
            jump!(Jeq, 1),
            Item::Label(2),
            two!(Add, reg 12, 12),
            two!(Addc, reg 13, 13),
            two!(Sub, made 1, 14),
            jump!(Jne, 2),
            Item::Label(1),
        ],
    )
}

/// What lies above x in R10, and x, go left by what 32 is more than the count.
pub(crate) fn put_right_turns_wide(items: &mut Vec<Item>, first: u32) -> Result<(), NoMemory>
    ensures { OnOk result (items.new.items ≡ items.old.items ++ map (shifted first) (items_from routines.right_turns_wide 0)) }
{
    put(
        items,
        first,
        &[
            two!(Mov, reg 10, 11),
            two!(Cmp, number 32, 14),
            jump!(Jnc, 0),
            two!(Mov, number 32, 14),
            Item::Label(0),
            two!(Mov, number 32, 15),
            two!(Sub, reg 14, 15),
            two!(Cmp, made 0, 15),
            jump!(Jeq, 1),
            Item::Label(2),
            two!(Add, reg 12, 12),
            two!(Addc, reg 13, 13),
            two!(Addc, reg 10, 10),
            two!(Addc, reg 11, 11),
            two!(Sub, made 1, 15),
            jump!(Jne, 2),
            Item::Label(1),
            two!(Mov, reg 10, 12),
            two!(Mov, reg 11, 13),
        ],
    )
}

/// x shifted right, in R12 and R13.
pub(crate) fn put_shift_right_wide(items: &mut Vec<Item>) -> Result<(), NoMemory>
    ensures { OnOk result (items.new.items ≡ items.old.items ++ items_from (routines.shift_right_wide false) 0) }
{
    put(items, 0, &[push!(10), push!(11), two!(Mov, made 0, 10)])?;
    put_right_turns_wide(items, 0)?;
    put(items, 0, &[restore!(11), DROP, restore!(10), DROP])
}

/// x with its sign shifted right, in R12 and R13.
pub(crate) fn put_shift_right_signed_wide(items: &mut Vec<Item>) -> Result<(), NoMemory>
    ensures { OnOk result (items.new.items ≡ items.old.items ++ items_from (routines.shift_right_wide true) 0) }
{
    put(
        items,
        0,
        &[
            push!(10),
            push!(11),
            two!(Mov, made 0, 10),
            two!(Cmp, number 0x8000, 13),
            jump!(Jnc, 0),
            two!(Mov, made 0xFFFF, 10),
            Item::Label(0),
        ],
    )?;
    put_right_turns_wide(items, 1)?;
    put(items, 0, &[restore!(11), DROP, restore!(10), DROP])?;
    Ok(())
}

/// x times y, in R12 and R13.
pub(crate) fn put_multiply_wide(items: &mut Vec<Item>) -> Result<(), NoMemory>
    ensures { OnOk result (items.new.items ≡ items.old.items ++ items_from routines.multiply_wide 0) }
{
    put(
        items,
        0,
        &[
            push!(9),
            push!(10),
            push!(11),
            two!(Mov, reg 12, 10),
            two!(Mov, reg 13, 11),
            two!(Mov, made 0, 12),
            two!(Mov, made 0, 13),
            two!(Mov, number 32, 9),
            two!(Cmp, made 0, 9),
            jump!(Jeq, 0),
            Item::Label(1),
            two!(Add, reg 12, 12),
            two!(Addc, reg 13, 13),
            two!(Add, reg 14, 14),
            two!(Addc, reg 15, 15),
            jump!(Jnc, 2),
            two!(Add, reg 10, 12),
            two!(Addc, reg 11, 13),
            Item::Label(2),
            two!(Sub, made 1, 9),
            jump!(Jne, 1),
            Item::Label(0),
            restore!(11),
            DROP,
            restore!(10),
            DROP,
            restore!(9),
            DROP,
        ],
    )
}

/// The quotient in R12 and R13, and the remainder in R10 and R11.
pub(crate) fn put_divide_wide(items: &mut Vec<Item>, first: u32) -> Result<(), NoMemory>
    ensures { OnOk result (items.new.items ≡ items.old.items ++ map (shifted first) (items_from routines.divide_wide 0)) }
{
    put(
        items,
        first,
        &[
            two!(Mov, reg 14, 9),
            two!(Bis, reg 15, 9),
            two!(Cmp, made 1, 9),
            jump!(Jc, 0),
            two!(Mov, made 0, 12),
            two!(Mov, made 0, 13),
            two!(Mov, made 1, 14),
            Item::Label(0),
            two!(Mov, made 0, 10),
            two!(Mov, made 0, 11),
            two!(Mov, number 32, 9),
            two!(Cmp, made 0, 9),
            jump!(Jeq, 1),
            Item::Label(2),
            two!(Add, reg 12, 12),
            two!(Addc, reg 13, 13),
            two!(Addc, reg 10, 10),
            two!(Addc, reg 11, 11),
            jump!(Jc, 3),
            two!(Cmp, reg 15, 11),
            jump!(Jne, 4),
            two!(Cmp, reg 14, 10),
            Item::Label(4),
            Item::Label(3),
            jump!(Jnc, 5),
            two!(Sub, reg 14, 10),
            two!(Subc, reg 15, 11),
            two!(Add, made 1, 12),
            Item::Label(5),
            two!(Sub, made 1, 9),
            jump!(Jne, 2),
            Item::Label(1),
        ],
    )
}

/// x divided by y, in R12 and R13.
pub(crate) fn put_quotient_wide(items: &mut Vec<Item>) -> Result<(), NoMemory>
    ensures { OnOk result (items.new.items ≡ items.old.items ++ items_from (routines.quotient_wide false) 0) }
{
    put(items, 0, &[push!(9), push!(10), push!(11)])?;
    put_divide_wide(items, 0)?;
    put(
        items,
        0,
        &[restore!(11), DROP, restore!(10), DROP, restore!(9), DROP],
    )
}

// Begins a signed division: R8 counts the signs that are taken away.
fn put_signed_start(items: &mut Vec<Item>) -> Result<(), NoMemory>
    ensures { OnOk result (items.new.items ≡ items.old.items ++ signed_start) }
{
    put(
        items,
        0,
        &[
            push!(8),
            push!(9),
            push!(10),
            push!(11),
            two!(Mov, made 0, 8),
            two!(Cmp, number 0x8000, 13),
            jump!(Jnc, 0),
            two!(Mov, made 0, 10),
            two!(Mov, made 0, 11),
            two!(Sub, reg 12, 10),
            two!(Subc, reg 13, 11),
            two!(Mov, reg 10, 12),
            two!(Mov, reg 11, 13),
            two!(Add, made 1, 8),
            Item::Label(0),
        ],
    )
}

// Ends a signed division: one sign that was taken away turns the result.
fn put_signed_end(items: &mut Vec<Item>) -> Result<(), NoMemory>
    ensures { OnOk result (items.new.items ≡ items.old.items ++ signed_end) }
{
    put(
        items,
        8,
        &[
            two!(Cmp, made 1, 8),
            jump!(Jne, 0),
            two!(Mov, made 0, 10),
            two!(Mov, made 0, 11),
            two!(Sub, reg 12, 10),
            two!(Subc, reg 13, 11),
            two!(Mov, reg 10, 12),
            two!(Mov, reg 11, 13),
            Item::Label(0),
            restore!(11),
            DROP,
            restore!(10),
            DROP,
            restore!(9),
            DROP,
            restore!(8),
            DROP,
        ],
    )
}

/// x divided by y with their signs, in R12 and R13.
pub(crate) fn put_quotient_signed_wide(items: &mut Vec<Item>) -> Result<(), NoMemory>
    ensures { OnOk result (items.new.items ≡ items.old.items ++ items_from (routines.quotient_wide true) 0) }
{
    put_signed_start(items)?;
    put(
        items,
        1,
        &[
            two!(Cmp, number 0x8000, 15),
            jump!(Jnc, 0),
            two!(Mov, made 0, 10),
            two!(Mov, made 0, 11),
            two!(Sub, reg 14, 10),
            two!(Subc, reg 15, 11),
            two!(Mov, reg 10, 14),
            two!(Mov, reg 11, 15),
            two!(Add, made 1, 8),
            Item::Label(0),
        ],
    )?;
    put_divide_wide(items, 2)?;
    put_signed_end(items)?;
    Ok(())
}

/// What remains of x, in R12 and R13.
pub(crate) fn put_remainder_wide(items: &mut Vec<Item>) -> Result<(), NoMemory>
    ensures { OnOk result (items.new.items ≡ items.old.items ++ items_from (routines.remainder_wide false) 0) }
{
    put(items, 0, &[push!(9), push!(10), push!(11)])?;
    put_divide_wide(items, 0)?;
    put(
        items,
        0,
        &[
            two!(Mov, reg 10, 12),
            two!(Mov, reg 11, 13),
            restore!(11),
            DROP,
            restore!(10),
            DROP,
            restore!(9),
            DROP,
        ],
    )
}

/// What remains of x, in R12 and R13, with the sign of x.
pub(crate) fn put_remainder_signed_wide(items: &mut Vec<Item>) -> Result<(), NoMemory>
    ensures { OnOk result (items.new.items ≡ items.old.items ++ items_from (routines.remainder_wide true) 0) }
{
    put_signed_start(items)?;
    put(
        items,
        1,
        &[
            two!(Cmp, number 0x8000, 15),
            jump!(Jnc, 0),
            two!(Mov, made 0, 10),
            two!(Mov, made 0, 11),
            two!(Sub, reg 14, 10),
            two!(Subc, reg 15, 11),
            two!(Mov, reg 10, 14),
            two!(Mov, reg 11, 15),
            Item::Label(0),
        ],
    )?;
    put_divide_wide(items, 2)?;
    put(items, 0, &[two!(Mov, reg 10, 12), two!(Mov, reg 11, 13)])?;
    put_signed_end(items)?;
    Ok(())
}
