//! Items one behind the other.

ghost use Rattle.std.specs.Prelude.{◌≡◌, ◌∷◌, [], ◌++◌, OnOk, false, true};
ghost use Rattle.msp_isa.specs.declared.code.Item.TheVariants as item;
ghost use Rattle.msp_isa.specs.declared.instr.Instr.TheVariants.{One as one, Two as two};
ghost use Rattle.msp_isa.specs.declared.instr.Op1.TheVariants as op1;
ghost use Rattle.msp_isa.specs.declared.instr.Op2.TheVariants as op2;

use msp_isa::{Instr, Item, Op1, Op2, Operand};
use nm_base::NoMemory;

/// One more item.
pub(crate) fn put(items: &mut Vec<Item>, more: Item) -> Result<(), NoMemory>
    ensures { OnOk result (items.new.items ≡ items.old.items ++ more ∷ []) }
{
    items.push(more)?;
    Ok(())
}

/// An operation on words.
pub(crate) fn put_two(
    items: &mut Vec<Item>,
    op: Op2,
    source: Operand,
    destination: Operand,
) -> Result<(), NoMemory>
    ensures { OnOk result (items.new.items ≡ items.old.items ++ item.Is (two op false source destination) ∷ []) }
{
    put(items, Item::Is(Instr::Two(op, false, source, destination)))
}

/// MOV of a word.
pub(crate) fn put_move(
    items: &mut Vec<Item>,
    source: Operand,
    destination: Operand,
) -> Result<(), NoMemory>
    ensures { OnOk result (items.new.items ≡ items.old.items ++ item.Is (two op2.Mov false source destination) ∷ []) }
{
    put_two(items, Op2::Mov, source, destination)
}

/// MOV of a byte.
pub(crate) fn put_byte_move(
    items: &mut Vec<Item>,
    source: Operand,
    destination: Operand,
) -> Result<(), NoMemory>
    ensures { OnOk result (items.new.items ≡ items.old.items ++ item.Is (two op2.Mov true source destination) ∷ []) }
{
    put(
        items,
        Item::Is(Instr::Two(Op2::Mov, true, source, destination)),
    )
}

/// PUSH of a word.
pub(crate) fn put_push(items: &mut Vec<Item>, source: Operand) -> Result<(), NoMemory>
    ensures { OnOk result (items.new.items ≡ items.old.items ++ item.Is (one op1.Push false source) ∷ []) }
{
    put(items, Item::Is(Instr::One(Op1::Push, false, source)))
}
