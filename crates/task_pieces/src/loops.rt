//! The loop, item for item.

ghost use Rattle.std.specs.Prelude.{◌≡◌, ◌≤◌, ◌∷◌, [], ◌++◌, length, IfOk, OnOk};
ghost use Rattle.msp_isa.specs.declared.code.Item.TheVariants as item;
ghost use Rattle.code_pieces.specs.Pieces as pieces;
ghost use Rattle.preempt_tasks.specs.Bodies as loop;
ghost use Rattle.preempt_tasks.specs.Laid.{choice_items};
ghost use Rattle.task_pieces.specs.Loop.{loop_of, turn_items};

use msp_isa::{CodeFn, Cond, Instr, Item, Op1, Op2, Operand};
use nm_base::{List, NoMemory, RAM_END};
use std::alloc::Global;

/// The stack pointer.
const SP: Operand = Operand::Reg(1);

/// The status register, and its bits GIE and CPUOFF.
const SR: Operand = Operand::Reg(2);

const GIE: u16 = 8;

const CPUOFF: u16 = 16;

/// What `pop` gives, and the register for the address of what starts.
const GIVEN: Operand = Operand::Reg(12);

const STARTED: u8 = 13;

/// What `pop` gives where there is no task.
const NO_TASK: u16 = 255;

/// The loop's label.
const LOOP: u32 = 0;

fn compare(place: u16) -> Instr
    ensures { result ≡ loop.compare place }
{
    Instr::Two(Op2::Cmp, false, Operand::Immediate(place), GIVEN)
}

fn open_gate() -> Item
    ensures { result ≡ item.Is pieces.open_gate }
{
    Item::Is(Instr::Two(Op2::Bis, false, Operand::Constant(GIE), SR))
}

// With the gate closed `pop` gives a task's place, or 255, where the processor sleeps until a handler has run.
fn put_turn(items: &mut Vec<Item>, boot: u32, pop: u32, none: u32) -> Result<(), NoMemory>
    ensures { OnOk result (items.new.items ≡ items.old.items ++ turn_items boot pop none) }
{
    items.extend_from_slice(&[
        Item::Is(Instr::Two(Op2::Mov, false, Operand::Immediate(RAM_END), SP)),
        open_gate(),
        Item::CallFn(boot),
        Item::Label(LOOP),
        Item::Is(Instr::Two(Op2::Bic, false, Operand::Constant(GIE), SR)),
        Item::Is(Instr::Two(Op2::Mov, false, Operand::Constant(0), Operand::Reg(3))),
        Item::CallFn(pop),
        Item::Is(compare(NO_TASK)),
        Item::Is(Instr::Jump(Cond::Jne, 3)),
        Item::Is(Instr::Two(Op2::Bis, false, Operand::Immediate(GIE + CPUOFF), SR)),
        Item::Is(Instr::Jump(Cond::Jmp, -10)),
        Item::AddrOf(none, STARTED),
    ])?;
    Ok(())
}

fn put_choice(items: &mut Vec<Item>, place: u16, task: u32) -> Result<(), NoMemory>
    ensures { OnOk result (items.new.items ≡ items.old.items ++ choice_items place (task ∷ [])) }
{
    items.extend_from_slice(&[
        Item::Is(compare(place)),
        Item::Is(Instr::Jump(Cond::Jne, 2)),
        Item::AddrOf(task, STARTED),
    ])?;
    Ok(())
}

// The address of the task at the place that was given is taken.
fn put_choices(items: &mut Vec<Item>, tasks: &[u32]) -> Result<(), NoMemory>
    requires few { length tasks.now ≤ 254 }
    ensures { OnOk result (items.new.items ≡ items.old.items ++ choice_items 0 tasks.now) }
{
    for (k, task) in tasks.iter().enumerate() {
        put_choice(items, k as u16, *task)?;
    }
    Ok(())
}

fn callees(
    alloc: Global,
    boot: u32,
    pop: u32,
    none: u32,
    tasks: &[u32],
) -> Result<List<u32>, NoMemory>
    ensures { IfOk result (λ fns. fns ≡ boot ∷ pop ∷ none ∷ tasks.now) }
{
    let mut fns = Vec::new(alloc);
    fns.extend_from_slice(&[boot, pop, none])?;
    fns.extend_from_slice(tasks)?;
    Ok(List::new(fns))
}

/// The code at reset: SP and GIE are set and the function at place `boot` is called; then in a loop the one at `pop` is called with
/// interrupts closed, and the task whose place it gives is called with interrupts open; where it gives 255 the mote sleeps until a
/// handler has run. At place `none` stands a lone RET.
pub fn loop_code(
    alloc: Global,
    boot: u32,
    pop: u32,
    none: u32,
    tasks: &[u32],
) -> Result<CodeFn, NoMemory>
    requires few { length tasks.now ≤ 254 }
    ensures { IfOk result (λ code. code ≡ loop_of boot pop none tasks.now) }
{
    let mut items = Vec::new(alloc);
    put_turn(&mut items, boot, pop, none)?;
    put_choices(&mut items, tasks)?;
    items.extend_from_slice(&[
        open_gate(),
        Item::Is(Instr::One(Op1::Call, false, Operand::Reg(STARTED))),
        Item::Jump(Cond::Jmp, LOOP),
    ])?;
    Ok(CodeFn {
        frame: 0,
        items: List::new(items),
        calls: callees(alloc, boot, pop, none, tasks)?,
    })
}
