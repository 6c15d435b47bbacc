//! The routine of each operation, by its type.

ghost use Rattle.std.specs.Prelude.{◌≡◌, ◌++◌, OnOk, true, false};
ghost use Rattle.msp_runtime.specs.Code.{items_from};
ghost use Rattle.msp_runtime.specs.Routines as routines;

use crate::bytes::{
    put_quotient_of_bytes, put_quotient_of_signed_bytes, put_remainder_of_bytes,
    put_remainder_of_signed_bytes, put_shift_right_of_byte, put_shift_right_of_signed_byte,
};
use crate::wide::{
    put_multiply_wide, put_quotient_signed_wide, put_quotient_wide, put_remainder_signed_wide,
    put_remainder_wide, put_shift_left_wide, put_shift_right_signed_wide, put_shift_right_wide,
};
use crate::words::{
    put_low_byte, put_multiply, put_quotient, put_quotient_signed, put_remainder,
    put_remainder_signed, put_shift_left, put_shift_right, put_shift_right_signed,
};
use mid_code::HelpOp;
use msp_isa::Item;
use nm_base::{IntType, NoMemory};

/// The code of an operation at a type, without its RET.
pub(crate) fn put_operation(
    items: &mut Vec<Item>,
    t: IntType,
    operation: HelpOp,
) -> Result<(), NoMemory>
    ensures { OnOk result (items.new.items ≡ items.old.items ++ items_from (routines.code_for t operation) 0) }
{
    match t {
        IntType::I8 => put_signed_byte(items, operation),
        IntType::U8 => put_byte(items, operation),
        IntType::I16 => put_signed_word(items, operation),
        IntType::U16 => put_word(items, operation),
        IntType::I32 => put_signed_wide(items, operation),
        IntType::U32 => put_wide(items, operation),
    }
}

fn put_signed_byte(items: &mut Vec<Item>, operation: HelpOp) -> Result<(), NoMemory>
    ensures { OnOk result (items.new.items ≡ items.old.items ++ items_from (routines.byte_code true operation) 0) }
{
    put_signed_byte_part(items, operation)?;
    put_low_byte(items)
}

// The code on words.
fn put_signed_byte_part(items: &mut Vec<Item>, operation: HelpOp) -> Result<(), NoMemory>
    ensures { OnOk result (items.new.items ≡ items.old.items ++ items_from (routines.byte_part true operation) 0) }
{
    match operation {
        HelpOp::Mul => put_multiply(items),
        HelpOp::Div => put_quotient_of_signed_bytes(items),
        HelpOp::Rem => put_remainder_of_signed_bytes(items),
        HelpOp::Shl => put_shift_left(items),
        HelpOp::Shr => put_shift_right_of_signed_byte(items),
    }
}

fn put_byte(items: &mut Vec<Item>, operation: HelpOp) -> Result<(), NoMemory>
    ensures { OnOk result (items.new.items ≡ items.old.items ++ items_from (routines.byte_code false operation) 0) }
{
    put_byte_part(items, operation)?;
    put_low_byte(items)
}

// The code on words.
fn put_byte_part(items: &mut Vec<Item>, operation: HelpOp) -> Result<(), NoMemory>
    ensures { OnOk result (items.new.items ≡ items.old.items ++ items_from (routines.byte_part false operation) 0) }
{
    match operation {
        HelpOp::Mul => put_multiply(items),
        HelpOp::Div => put_quotient_of_bytes(items),
        HelpOp::Rem => put_remainder_of_bytes(items),
        HelpOp::Shl => put_shift_left(items),
        HelpOp::Shr => put_shift_right_of_byte(items),
    }
}

fn put_signed_word(items: &mut Vec<Item>, operation: HelpOp) -> Result<(), NoMemory>
    ensures { OnOk result (items.new.items ≡ items.old.items ++ items_from (routines.word_code true operation) 0) }
{
    match operation {
        HelpOp::Mul => put_multiply(items),
        HelpOp::Div => put_quotient_signed(items),
        HelpOp::Rem => put_remainder_signed(items),
        HelpOp::Shl => put_shift_left(items),
        HelpOp::Shr => put_shift_right_signed(items),
    }
}

fn put_word(items: &mut Vec<Item>, operation: HelpOp) -> Result<(), NoMemory>
    ensures { OnOk result (items.new.items ≡ items.old.items ++ items_from (routines.word_code false operation) 0) }
{
    match operation {
        HelpOp::Mul => put_multiply(items),
        HelpOp::Div => put_quotient(items),
        HelpOp::Rem => put_remainder(items),
        HelpOp::Shl => put_shift_left(items),
        HelpOp::Shr => put_shift_right(items),
    }
}

fn put_signed_wide(items: &mut Vec<Item>, operation: HelpOp) -> Result<(), NoMemory>
    ensures { OnOk result (items.new.items ≡ items.old.items ++ items_from (routines.wide_code true operation) 0) }
{
    match operation {
        HelpOp::Mul => put_multiply_wide(items),
        HelpOp::Div => put_quotient_signed_wide(items),
        HelpOp::Rem => put_remainder_signed_wide(items),
        HelpOp::Shl => put_shift_left_wide(items),
        HelpOp::Shr => put_shift_right_signed_wide(items),
    }
}

fn put_wide(items: &mut Vec<Item>, operation: HelpOp) -> Result<(), NoMemory>
    ensures { OnOk result (items.new.items ≡ items.old.items ++ items_from (routines.wide_code false operation) 0) }
{
    match operation {
        HelpOp::Mul => put_multiply_wide(items),
        HelpOp::Div => put_quotient_wide(items),
        HelpOp::Rem => put_remainder_wide(items),
        HelpOp::Shl => put_shift_left_wide(items),
        HelpOp::Shr => put_shift_right_wide(items),
    }
}
