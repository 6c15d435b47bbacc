//! The instructions of the middle code.

use nm_base::List;

/// Operations on two values, modulo 65,536.
#[derive(Clone, Copy, Debug, PartialEq, Eq)]
pub enum Op {
    Add,
    Sub,
    And,
    Or,
    Xor,
}

/// What a branch asks of two values: the first compared with the second, `Lt` and `Le` as signed numbers, `LtU` and `LeU` as
/// unsigned ones.
#[derive(Clone, Copy, Debug, PartialEq, Eq)]
pub enum Test {
    Eq,
    Ne,
    Lt,
    Le,
    LtU,
    LeU,
}

/// An instruction. Values have 16 bits and are named by numbers, and so are labels, functions, helpers and tasks. The value
/// that is written stands first; the last value of a Load, Store, Peek or Poke is the address, or the offset in the call's own
/// frame; their flag tells 16 bits. A Call and a Help name the values passed, and then those that they take back. A Begin and
/// its End name the place in the frame where the status is saved.
#[derive(Debug, Drop, PartialEq, Eq)]
pub enum Mid {
    Set(u32, u16),
    Move(u32, u32),
    Bin(Op, u32, u32, u32),
    Carry(Op, u32, u32, u32),
    Load(bool, u32, u32),
    Store(bool, u32, u32),
    Peek(bool, u32, u32),
    Poke(bool, u32, u32),
    In(u32, u16),
    Out(u16, u32),
    Label(u32),
    Jump(u32),
    Branch(Test, u32, u32, u32),
    Call(u32, List<u32>, List<u32>),
    Help(u32, List<u32>, List<u32>),
    Ret(List<u32>),
    Begin(u16),
    End(u16),
    Post(u32, u32),
    Tick,
    Fault(u8),
}
