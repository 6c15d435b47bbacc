//! The words of the code, item by item.

ghost use Rattle.std.specs.Prelude.{◌≡◌, ℕ, ◌+◌, ◌*◌, ◌^◌, ◌<◌, ◌≤◌, ◌++◌, OnOk, List, true, false, length, slice_index, sum};
ghost use Rattle.std.specs.List.{AllByRecursion};
ghost use Rattle.nm_base.specs.declared.memory_map.TheConstants.{CODE_BYTES};
ghost use Rattle.nm_base.specs.Lists.{IsPrefixOf};
ghost use Rattle.msp_isa.specs.Encode.{encoded, IsWritten};
ghost use Rattle.msp_isa.specs.Stands.{words_to, reversed, goto, long_jump, instructions, item_at};
ghost use Rattle.msp_layout.specs.Laid.{IsGoodItem};
ghost use Rattle.msp_layout.specs.Words.{words_of, IsJump, IsFormed, ItemsStand};

use crate::form::Formed;
use msp_isa::{Cond, Instr, Item, Op1, Op2, Operand, encode};
use nm_base::{CODE_START, NoMemory};

/// The bytes of a jump of one word.
const SHORT_JUMP_BYTES: u32 = 2;

// The words from behind a jump's word to an address.
fn words_to(next: u16, target: u16) -> i16
    requires back { next ≤ target + 1024 }
    requires forth { target ≤ next + 1022 }
    ensures { result ≡ words_to next target }
{
    if next <= target {
        ((target - next) / 2) as i16
    } else {
        -1 - ((next - target - 1) / 2) as i16
    }
}

// The condition that holds where this one does not.
fn reversed(condition: Cond) -> Cond
    ensures { result ≡ reversed condition }
{
    match condition {
        Cond::Jne => Cond::Jeq,
        Cond::Jeq => Cond::Jne,
        Cond::Jnc => Cond::Jc,
        Cond::Jc => Cond::Jnc,
        Cond::Jge => Cond::Jl,
        Cond::Jl => Cond::Jge,
        Cond::Jn | Cond::Jmp => condition,
    }
}

// MOV #target, PC
fn goto(target: u16) -> Instr
    ensures { result ≡ goto target }
{
    Instr::Two(Op2::Mov, false, Operand::Immediate(target), Operand::Reg(0))
}

fn push_instr(code: &mut Vec<u16>, instr: Instr) -> Result<(), NoMemory>
    requires { IsWritten instr }
    ensures { OnOk result (code.new.items ≡ code.old.items ++ encoded instr) }
{
    let words = encode(&instr);
    code.extend_from_slice(&words.w[..words.len])?;
    Ok(())
}

// A jump of any reach.
fn push_long_jump(code: &mut Vec<u16>, condition: Cond, target: u16) -> Result<(), NoMemory>
    ensures { OnOk result (code.new.items ≡ code.old.items ++ words_of (long_jump condition target)) }
{
    match condition {
        Cond::Jmp => {}
        Cond::Jn => {
            push_instr(code, Instr::Jump(Cond::Jn, 1))?;
            push_instr(code, Instr::Jump(Cond::Jmp, 2))?;
        }
        _ => push_instr(code, Instr::Jump(reversed(condition), 2))?,
    }
    push_instr(code, goto(target))
}

// An item that stands at one address and leads to another.
fn push_item(
    code: &mut Vec<u16>,
    item: Item,
    long: bool,
    from: u16,
    target: u16,
    entries: &[u16],
) -> Result<(), NoMemory>
    requires good { IsGoodItem (length entries.now) item }
    requires written { AllByRecursion IsWritten (instructions (slice_index entries.now) long from target item) }
    requires low { from + 2 < 2 ^ 16 }
    requires back { long ≡ false → IsJump item → from + 2 ≤ target + 1024 }
    requires forth { long ≡ false → IsJump item → target ≤ from + 1024 }
    ensures { OnOk result (code.new.items ≡ code.old.items ++ words_of (instructions (slice_index entries.now) long from target item)) }
{
    match item {
        Item::Is(instr) => push_instr(code, instr),
        Item::Label(_) => Ok(()),
        Item::Jump(condition, _) if long => push_long_jump(code, condition, target),
        Item::Jump(condition, _) => {
            push_instr(code, Instr::Jump(condition, words_to(from + 2, target)))
        }
        Item::CallFn(f) => {
            let entry = Operand::Immediate(entries[f as usize]);
            push_instr(code, Instr::One(Op1::Call, false, entry))
        }
        Item::AddrOf(f, r) => {
            let entry = Operand::Immediate(entries[f as usize]);
            push_instr(code, Instr::Two(Op2::Mov, false, entry, Operand::Reg(r)))
        }
    }
}

/// Puts the words of a function behind those of others.
pub(crate) fn push_fn(
    code: &mut Vec<u16>,
    items: &[Item],
    form: &Formed,
    entries: &[u16],
) -> Result<(), NoMemory>
    requires good { (k : ℕ) → k < length items.now → IsGoodItem (length entries.now) (item_at items.now k) }
    requires formed { IsFormed items.now form.now }
    requires room { 2 * length code.old.items + sum form.now.sizes.items ≤ CODE_BYTES }
    ensures grows { OnOk result (IsPrefixOf code.old.items code.new.items) }
    ensures len { OnOk result (2 * length code.new.items ≡ 2 * length code.old.items + sum form.now.sizes.items) }
    ensures wide { OnOk result ((i : ℕ) → slice_index code.new.items i < 2 ^ 16) }
    ensures stands { OnOk result (ItemsStand (slice_index entries.now) items.now form.now.sizes.items form.now.targets.items (2 * length code.old.items) code.new.items (length items.now)) }
{
    let entry = CODE_START + 2 * code.len() as u16;
    for (k, item) in items.iter().enumerate() {
        let from = entry + form.places[k] as u16;
        let target = entry + form.places[form.targets[k]] as u16;
        let long = form.sizes[k] != SHORT_JUMP_BYTES;
        push_item(code, *item, long, from, target, entries)?;
    }
    Ok(())
}
