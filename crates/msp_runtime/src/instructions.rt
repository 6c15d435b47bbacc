//! Short names for the instructions of routines.

use msp_isa::{Instr, Item, Op2, Operand};

// An operation of a register, or of a number of the constant generator, or of another number, on a register.
macro_rules! two {
    ($op:ident, reg $q:expr, $r:expr) => {
        Item::Is(Instr::Two(Op2::$op, false, Operand::Reg($q), Operand::Reg($r)))
    };
    ($op:ident, made $n:expr, $r:expr) => {
        Item::Is(Instr::Two(Op2::$op, false, Operand::Constant($n), Operand::Reg($r)))
    };
    ($op:ident, number $n:expr, $r:expr) => {
        Item::Is(Instr::Two(Op2::$op, false, Operand::Immediate($n), Operand::Reg($r)))
    };
}

pub(crate) use two;

macro_rules! jump {
    ($condition:ident, $label:expr) => {
        Item::Jump(Cond::$condition, $label)
    };
}

pub(crate) use jump;

macro_rules! push {
    ($r:expr) => {
        Item::Is(Instr::One(Op1::Push, false, Operand::Reg($r)))
    };
}

pub(crate) use push;

// The word that was pushed last.
macro_rules! restore {
    ($r:expr) => {
        Item::Is(Instr::Two(Op2::Mov, false, Operand::Indexed(1, 0), Operand::Reg($r)))
    };
}

pub(crate) use restore;

/// The word that was pushed last is dropped.
pub(crate) const DROP: Item = Item::Is(Instr::Two(
    Op2::Add,
    false,
    Operand::Constant(2),
    Operand::Reg(1),
));
