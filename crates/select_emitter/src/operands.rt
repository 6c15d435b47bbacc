//! Numbers as operands, operations and conditions.

ghost use Rattle.std.specs.Prelude.{◌≡◌, true, false};
ghost use Rattle.open_law.specs.Homes as homes;
ghost use Rattle.msp_select.specs.Select as select;

use mid_code::{Op, Test};
use msp_isa::{Cond, Op2, Operand};

/// The program counter.
pub(crate) const PC: Operand = Operand::Reg(0);

/// The stack pointer.
pub(crate) const SP: Operand = Operand::Reg(1);

/// The status register.
pub(crate) const SR: Operand = Operand::Reg(2);

/// R12, which is free between two instructions of the middle code.
pub(crate) const SCRATCH: Operand = Operand::Reg(12);

/// The shortest operand of a number.
pub(crate) fn literal(n: u16) -> Operand
    ensures { result ≡ homes.operand_of (homes.literal n) }
{
    match n {
        0 | 1 | 2 | 4 | 8 | 0xFFFF => Operand::Constant(n),
        _ => Operand::Immediate(n),
    }
}

pub(crate) fn operator(op: Op) -> Op2
    ensures { result ≡ select.operator op }
{
    match op {
        Op::Add => Op2::Add,
        Op::Sub => Op2::Sub,
        Op::And => Op2::And,
        Op::Or => Op2::Bis,
        Op::Xor => Op2::Xor,
    }
}

/// Whether a test compares its second value with the first.
pub(crate) fn is_turned(test: Test) -> bool
    ensures { result ≡ select.is_turned test }
{
    matches!(test, Test::Le | Test::LeU)
}

/// The jump that is taken where a test holds, behind CMP.
pub(crate) fn taken_by(test: Test) -> Cond
    ensures { result ≡ select.taken_by test }
{
    match test {
        Test::Eq => Cond::Jeq,
        Test::Ne => Cond::Jne,
        Test::Lt => Cond::Jl,
        Test::Le => Cond::Jge,
        Test::LtU => Cond::Jnc,
        Test::LeU => Cond::Jc,
    }
}
