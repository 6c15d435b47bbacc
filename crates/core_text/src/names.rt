//! Types and operators as words.

use crate::text::Text;
use nesc_core::{BinOp, CoreType, UnOp};
use nm_base::{IntType, NoMemory};

/// The word for a type of numbers.
pub(crate) fn int_name(t: IntType) -> &'static [u8] {
    match t {
        IntType::I8 => b"i8",
        IntType::U8 => b"u8",
        IntType::I16 => b"i16",
        IntType::U16 => b"u16",
        IntType::I32 => b"i32",
        IntType::U32 => b"u32",
    }
}

/// The word for an operator on one number.
pub(crate) fn unary_name(o: UnOp) -> &'static [u8] {
    match o {
        UnOp::Neg => b"neg",
        UnOp::Not => b"not",
        UnOp::IsZero => b"is_zero",
    }
}

/// The word for an operator on two numbers.
pub(crate) fn binary_name(o: BinOp) -> &'static [u8] {
    match o {
        BinOp::Add => b"add",
        BinOp::Sub => b"sub",
        BinOp::Mul => b"mul",
        BinOp::Div => b"div",
        BinOp::Rem => b"rem",
        BinOp::And => b"and",
        BinOp::Or => b"or",
        BinOp::Xor => b"xor",
        BinOp::Shl => b"shl",
        BinOp::Shr => b"shr",
        BinOp::Eq => b"eq",
        BinOp::Ne => b"ne",
        BinOp::Lt => b"lt",
        BinOp::Le => b"le",
    }
}

/// A type, with the brackets of the outer array first.
pub fn type_text(out: &mut Text, t: &CoreType) -> Result<(), NoMemory> {
    match t {
        CoreType::Void => out.put(b"void"),
        CoreType::Int(int) => out.put(int_name(*int)),
        CoreType::Pointer(part) => {
            out.put(b"*")?;
            type_text(out, part)
        }
        CoreType::Array(part, n) => {
            out.put_number(b"[", i64::from(*n))?;
            out.put(b"]")?;
            type_text(out, part)
        }
        CoreType::Struct(k) => out.put_number(b"struct ", i64::from(*k)),
    }
}
