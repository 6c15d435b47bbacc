//! Operators on two numbers, which stand at `r` and `r + 2`.

ghost use Rattle.std.specs.Prelude.{◌≡◌, ◌++◌, ◌+◌, ◌<◌, ◌^◌, OnOk, if◌then◌else◌};
ghost use Rattle.lower_expr.specs.Pieces.{binary_code, bits_code, count_code, divisor_code, equal_code, order_code, product_code, shift_code, sum_code};
ghost use Rattle.mid_code.specs.Help as help;
ghost use Rattle.mid_code.specs.declared.instr.Test.TheVariants as tests;

use crate::conversions::{put_fit, put_truth};
use crate::numbers::{is_signed, is_wide};
use crate::put::{push_values, put, values_at};
use mid_code::{HelpOp, Mid, Op, Test, help_number};
use nesc_core::BinOp;
use nm_base::{IntType, List, NoMemory};
use std::alloc::Global;

// A sum or a difference, with the carry between the halves.
fn put_sum(code: &mut Vec<Mid>, op: Op, wide: bool, r: u32) -> Result<(), NoMemory>
    requires { r + 4 < 2 ^ 32 }
    ensures { OnOk result (code.new.items ≡ code.old.items ++ sum_code op wide r) }
{
    if wide {
        put(code, Mid::Carry(op, r + 4, r, r + 2))?;
        put(code, Mid::Bin(op, r, r, r + 2))?;
        put(code, Mid::Bin(op, r + 1, r + 1, r + 3))?;
        put(code, Mid::Bin(op, r + 1, r + 1, r + 4))
    } else {
        put(code, Mid::Bin(op, r, r, r + 2))
    }
}

fn put_bits(code: &mut Vec<Mid>, op: Op, wide: bool, r: u32) -> Result<(), NoMemory>
    requires { r + 3 < 2 ^ 32 }
    ensures { OnOk result (code.new.items ≡ code.old.items ++ bits_code op wide r) }
{
    if wide {
        put(code, Mid::Bin(op, r, r, r + 2))?;
        put(code, Mid::Bin(op, r + 1, r + 1, r + 3))
    } else {
        put(code, Mid::Bin(op, r, r, r + 2))
    }
}

// A zero divisor is fault 3.
fn put_divisor(code: &mut Vec<Mid>, wide: bool, r: u32, l: u32) -> Result<(), NoMemory>
    requires { r + 5 < 2 ^ 32 }
    ensures { OnOk result (code.new.items ≡ code.old.items ++ divisor_code wide r l) }
{
    if wide {
        put(code, Mid::Bin(Op::Or, r + 4, r + 2, r + 3))?;
        put(code, Mid::Set(r + 5, 0))?;
        put(code, Mid::Branch(Test::Ne, r + 4, r + 5, l))?;
        put(code, Mid::Fault(3))?;
        put(code, Mid::Label(l))
    } else {
        put(code, Mid::Set(r + 4, 0))?;
        put(code, Mid::Branch(Test::Ne, r + 2, r + 4, l))?;
        put(code, Mid::Fault(3))?;
        put(code, Mid::Label(l))
    }
}

// A product, a quotient or a remainder.
fn put_product(
    alloc: Global,
    code: &mut Vec<Mid>,
    o: HelpOp,
    t: IntType,
    r: u32,
) -> Result<(), NoMemory>
    requires { r + 3 < 2 ^ 32 }
    ensures { OnOk result (code.new.items ≡ code.old.items ++ product_code o t r) }
{
    let wide = is_wide(t);
    let mut passed = values_at(alloc, wide, r)?;
    push_values(&mut passed, wide, r + 2)?;
    let given = values_at(alloc, wide, r)?;
    put(
        code,
        Mid::Help(help_number(t, o), List::new(passed), List::new(given)),
    )
}

// A count with a high half is negative or large: 32 stands for it.
fn put_count(code: &mut Vec<Mid>, wide: bool, r: u32, l: u32) -> Result<(), NoMemory>
    requires { r + 4 < 2 ^ 32 }
    ensures { OnOk result (code.new.items ≡ code.old.items ++ count_code wide r l) }
{
    if wide {
        put(code, Mid::Set(r + 4, 0))?;
        put(code, Mid::Branch(Test::Eq, r + 3, r + 4, l))?;
        put(code, Mid::Set(r + 2, 32))?;
        put(code, Mid::Label(l))
    } else {
        Ok(())
    }
}

fn put_shift(
    alloc: Global,
    code: &mut Vec<Mid>,
    o: HelpOp,
    t: IntType,
    count: IntType,
    r: u32,
    l: u32,
) -> Result<(), NoMemory>
    requires { r + 4 < 2 ^ 32 }
    ensures { OnOk result (code.new.items ≡ code.old.items ++ shift_code o t count r l) }
{
    put_count(code, is_wide(count), r, l)?;
    let wide = is_wide(t);
    let mut passed = values_at(alloc, wide, r)?;
    passed.push(r + 2)?;
    let given = values_at(alloc, wide, r)?;
    put(
        code,
        Mid::Help(help_number(t, o), List::new(passed), List::new(given)),
    )
}

fn put_equal(code: &mut Vec<Mid>, test: Test, wide: bool, r: u32, l: u32) -> Result<(), NoMemory>
    requires values { r + 3 < 2 ^ 32 }
    requires labels { l + 1 < 2 ^ 32 }
    ensures { OnOk result (code.new.items ≡ code.old.items ++ equal_code test wide r l) }
{
    if wide {
        put(code, Mid::Bin(Op::Xor, r, r, r + 2))?;
        put(code, Mid::Bin(Op::Xor, r + 1, r + 1, r + 3))?;
        put(code, Mid::Bin(Op::Or, r, r, r + 1))?;
        put(code, Mid::Set(r + 2, 0))?;
        put(code, Mid::Branch(test, r, r + 2, l))?;
        put_truth(code, r, l)
    } else {
        put(code, Mid::Branch(test, r, r + 2, l))?;
        put_truth(code, r, l)
    }
}

fn less(signed: bool) -> Test
    ensures { result ≡ (if signed then tests.Lt else tests.LtU) }
{
    if signed { Test::Lt } else { Test::LtU }
}

fn at_most(signed: bool) -> Test
    ensures { result ≡ (if signed then tests.Le else tests.LeU) }
{
    if signed { Test::Le } else { Test::LeU }
}

// How the low halves are compared where the high ones are equal.
fn by_low(strict: bool) -> Test
    ensures { result ≡ (if strict then tests.LtU else tests.LeU) }
{
    if strict { Test::LtU } else { Test::LeU }
}

// By the high halves, and where they are equal by the low ones; three labels.
fn put_order(
    code: &mut Vec<Mid>,
    strict: bool,
    signed: bool,
    wide: bool,
    r: u32,
    l: u32,
) -> Result<(), NoMemory>
    requires values { r + 3 < 2 ^ 32 }
    requires labels { l + 2 < 2 ^ 32 }
    ensures { OnOk result (code.new.items ≡ code.old.items ++ order_code strict signed wide r l) }
{
    if wide {
        put(code, Mid::Branch(less(signed), r + 1, r + 3, l))?;
        put(code, Mid::Branch(Test::Ne, r + 1, r + 3, l + 2))?;
        put(code, Mid::Branch(by_low(strict), r, r + 2, l))?;
        put(code, Mid::Label(l + 2))?;
        put_truth(code, r, l)
    } else if strict {
        put(code, Mid::Branch(less(signed), r, r + 2, l))?;
        put_truth(code, r, l)
    } else {
        put(code, Mid::Branch(at_most(signed), r, r + 2, l))?;
        put_truth(code, r, l)
    }
}

/// An operator on the numbers at `r` and `r + 2`, of type `t`; three labels. The count of a shift has a type of its own.
pub(crate) fn put_binary(
    alloc: Global,
    code: &mut Vec<Mid>,
    op: BinOp,
    t: IntType,
    second: IntType,
    r: u32,
    l: u32,
) -> Result<(), NoMemory>
    requires values { r + 5 < 2 ^ 32 }
    requires labels { l + 2 < 2 ^ 32 }
    ensures { OnOk result (code.new.items ≡ code.old.items ++ binary_code op t second r l) }
{
    let wide = is_wide(t);
    match op {
        BinOp::Add => {
            put_sum(code, Op::Add, wide, r)?;
            put_fit(code, t, r)
        }
        BinOp::Sub => {
            put_sum(code, Op::Sub, wide, r)?;
            put_fit(code, t, r)
        }
        BinOp::Mul => put_product(alloc, code, HelpOp::Mul, t, r),
        BinOp::Div => {
            put_divisor(code, wide, r, l)?;
            put_product(alloc, code, HelpOp::Div, t, r)
        }
        BinOp::Rem => {
            put_divisor(code, wide, r, l)?;
            put_product(alloc, code, HelpOp::Rem, t, r)
        }
        BinOp::And => put_bits(code, Op::And, wide, r),
        BinOp::Or => put_bits(code, Op::Or, wide, r),
        BinOp::Xor => put_bits(code, Op::Xor, wide, r),
        BinOp::Shl => put_shift(alloc, code, HelpOp::Shl, t, second, r, l),
        BinOp::Shr => put_shift(alloc, code, HelpOp::Shr, t, second, r, l),
        BinOp::Eq => put_equal(code, Test::Eq, wide, r, l),
        BinOp::Ne => put_equal(code, Test::Ne, wide, r, l),
        BinOp::Lt => put_order(code, true, is_signed(t), wide, r, l),
        BinOp::Le => put_order(code, false, is_signed(t), wide, r, l),
    }
}
