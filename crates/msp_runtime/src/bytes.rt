//! The pieces of routines of 8 bits that extend bytes to words first.

ghost use Rattle.std.specs.Prelude.{◌≡◌, ◌++◌, OnOk, true, false};
ghost use Rattle.mid_code.specs.declared.help.HelpOp.TheVariants as help;
ghost use Rattle.msp_runtime.specs.Code.{items_from};
ghost use Rattle.msp_runtime.specs.Routines as routines;

use crate::words::{
    put_extend_x, put_extend_x_signed, put_extend_y, put_extend_y_signed, put_quotient,
    put_quotient_signed, put_remainder, put_remainder_signed, put_shift_right,
    put_shift_right_signed,
};
use msp_isa::Item;
use nm_base::NoMemory;

pub(crate) fn put_quotient_of_bytes(items: &mut Vec<Item>) -> Result<(), NoMemory>
    ensures { OnOk result (items.new.items ≡ items.old.items ++ items_from (routines.byte_part false help.Div) 0) }
{
    put_extend_x(items)?;
    put_extend_y(items)?;
    put_quotient(items)?;
    Ok(())
}

pub(crate) fn put_quotient_of_signed_bytes(items: &mut Vec<Item>) -> Result<(), NoMemory>
    ensures { OnOk result (items.new.items ≡ items.old.items ++ items_from (routines.byte_part true help.Div) 0) }
{
    put_extend_x_signed(items)?;
    put_extend_y_signed(items)?;
    put_quotient_signed(items)?;
    Ok(())
}

pub(crate) fn put_remainder_of_bytes(items: &mut Vec<Item>) -> Result<(), NoMemory>
    ensures { OnOk result (items.new.items ≡ items.old.items ++ items_from (routines.byte_part false help.Rem) 0) }
{
    put_extend_x(items)?;
    put_extend_y(items)?;
    put_remainder(items)?;
    Ok(())
}

pub(crate) fn put_remainder_of_signed_bytes(items: &mut Vec<Item>) -> Result<(), NoMemory>
    ensures { OnOk result (items.new.items ≡ items.old.items ++ items_from (routines.byte_part true help.Rem) 0) }
{
    put_extend_x_signed(items)?;
    put_extend_y_signed(items)?;
    put_remainder_signed(items)?;
    Ok(())
}

pub(crate) fn put_shift_right_of_byte(items: &mut Vec<Item>) -> Result<(), NoMemory>
    ensures { OnOk result (items.new.items ≡ items.old.items ++ items_from (routines.byte_part false help.Shr) 0) }
{
    put_extend_x(items)?;
    put_shift_right(items)?;
    Ok(())
}

pub(crate) fn put_shift_right_of_signed_byte(items: &mut Vec<Item>) -> Result<(), NoMemory>
    ensures { OnOk result (items.new.items ≡ items.old.items ++ items_from (routines.byte_part true help.Shr) 0) }
{
    put_extend_x_signed(items)?;
    put_shift_right_signed(items)?;
    Ok(())
}
