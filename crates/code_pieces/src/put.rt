//! Instructions one behind the other.

ghost use Rattle.std.specs.Prelude.{◌≡◌, ◌∷◌, [], ◌++◌, OnOk, map};
ghost use Rattle.code_pieces.specs.Pieces as pieces;
ghost use Rattle.msp_isa.specs.declared.code.Item.TheVariants as item;

use msp_isa::{Instr, Item, Op1, Op2, Operand};
use nm_base::NoMemory;

/// The stack pointer.
pub(crate) const SP: u8 = 1;

/// The status register.
const SR: Operand = Operand::Reg(2);

/// The bits GIE and CPUOFF of SR.
const GIE: u16 = 8;

const CPUOFF: u16 = 16;

/// One more instruction.
pub(crate) fn put(items: &mut Vec<Item>, instr: Instr) -> Result<(), NoMemory>
    ensures { OnOk result (items.new.items ≡ items.old.items ++ item.Is instr ∷ []) }
{
    items.push(Item::Is(instr))?;
    Ok(())
}

fn push(r: u8) -> Item
    ensures { result ≡ item.Is (pieces.push r) }
{
    Item::Is(Instr::One(Op1::Push, false, Operand::Reg(r)))
}

fn pop(r: u8) -> Item
    ensures { result ≡ item.Is (pieces.pop r) }
{
    Item::Is(Instr::Two(Op2::Mov, false, Operand::Increment(SP), Operand::Reg(r)))
}

/// Pushes of R15 down to R4.
pub(crate) fn put_entry(items: &mut Vec<Item>) -> Result<(), NoMemory>
    ensures { OnOk result (items.new.items ≡ items.old.items ++ map item.Is pieces.entry) }
{
    items.extend_from_slice(&[
        push(15),
        push(14),
        push(13),
        push(12),
        push(11),
        push(10),
        push(9),
        push(8),
        push(7),
        push(6),
        push(5),
        push(4),
    ])?;
    Ok(())
}

fn put_pops(items: &mut Vec<Item>) -> Result<(), NoMemory>
    ensures { OnOk result (items.new.items ≡ items.old.items ++ map item.Is (map pieces.pop pieces.restored)) }
{
    items.extend_from_slice(&[
        pop(4),
        pop(5),
        pop(6),
        pop(7),
        pop(8),
        pop(9),
        pop(10),
        pop(11),
        pop(12),
        pop(13),
        pop(14),
        pop(15),
    ])?;
    Ok(())
}

// BIC #16, 0(SP): what was asleep goes on behind the return.
fn put_awake(items: &mut Vec<Item>) -> Result<(), NoMemory>
    ensures { OnOk result (items.new.items ≡ items.old.items ++ item.Is pieces.awake ∷ []) }
{
    put(
        items,
        Instr::Two(
            Op2::Bic,
            false,
            Operand::Immediate(CPUOFF),
            Operand::Indexed(SP, 0),
        ),
    )
}

/// Pops of R4 up to R15; CPUOFF is cleared in the saved SR; RETI.
pub(crate) fn put_exit(items: &mut Vec<Item>) -> Result<(), NoMemory>
    ensures { OnOk result (items.new.items ≡ items.old.items ++ map item.Is pieces.exit) }
{
    put_pops(items)?;
    put_awake(items)?;
    put(items, Instr::Reti)
}

// An instruction that does nothing.
fn put_nop(items: &mut Vec<Item>) -> Result<(), NoMemory>
    ensures { OnOk result (items.new.items ≡ items.old.items ++ item.Is pieces.nop ∷ []) }
{
    put(
        items,
        Instr::Two(Op2::Mov, false, Operand::Constant(0), Operand::Reg(3)),
    )
}

/// SR is kept in the frame, GIE is cleared, and behind a NOP the gate has followed it.
pub(crate) fn put_begin(items: &mut Vec<Item>, place: u16) -> Result<(), NoMemory>
    ensures { OnOk result (items.new.items ≡ items.old.items ++ map item.Is (pieces.begin place)) }
{
    put(
        items,
        Instr::Two(Op2::Mov, false, SR, Operand::Indexed(SP, place)),
    )?;
    put(
        items,
        Instr::Two(Op2::Bic, false, Operand::Constant(GIE), SR),
    )?;
    put_nop(items)
}

/// SR is as it was kept.
pub(crate) fn put_end(items: &mut Vec<Item>, place: u16) -> Result<(), NoMemory>
    ensures { OnOk result (items.new.items ≡ items.old.items ++ map item.Is (pieces.end place)) }
{
    put(
        items,
        Instr::Two(Op2::Mov, false, Operand::Indexed(SP, place), SR),
    )
}

/// GIE is set.
pub(crate) fn put_open(items: &mut Vec<Item>) -> Result<(), NoMemory>
    ensures { OnOk result (items.new.items ≡ items.old.items ++ item.Is pieces.open_gate ∷ []) }
{
    put(
        items,
        Instr::Two(Op2::Bis, false, Operand::Constant(GIE), SR),
    )
}

/// GIE and CPUOFF are set in one instruction.
pub(crate) fn put_sleep(items: &mut Vec<Item>) -> Result<(), NoMemory>
    ensures { OnOk result (items.new.items ≡ items.old.items ++ map item.Is pieces.sleep) }
{
    put(
        items,
        Instr::Two(Op2::Bis, false, Operand::Immediate(GIE + CPUOFF), SR),
    )
}
