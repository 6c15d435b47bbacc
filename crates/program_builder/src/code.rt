//! The code of a kernel's program, with the loop of its tasks.

ghost use Rattle.std.specs.Prelude.{◌≡◌, ◌++◌, ◌<◌, ◌≤◌, ◌^◌, IfOk, OnOk, length, map};
ghost use Rattle.std.specs.List.{range_with_len};
ghost use Rattle.nesc_core.specs.View.{program_of};
ghost use Rattle.nesc_core.specs.WellFormed.{IsWellFormed};
ghost use Rattle.lower_stmt.specs.Bodies.{lowered};
ghost use Rattle.lower_form.specs.Short.{IsShort};
ghost use Rattle.program_image.specs.Order.{line_of};
ghost use Rattle.image_code.specs.Laws.{CanBeChecked};
ghost use Rattle.task_image.specs.Order.{lone};
ghost use Rattle.program_builder.specs.Parts.{code_of_kernel, pieces_of_kernel};

use code_pieces::handler_code;
use image_builder::{add_routines, handler_of};
use kernel_code::Queued;
use msp_isa::{CodeFn, Instr, Item, Op2, Operand};
use nesc_core::Program;
use nm_base::{List, NoMemory};
use select_emitter::select;
use std::alloc::Global;
use stmt_emitter::lower;
use task_pieces::loop_code;

/// The lines of the mote.
const LINES: u8 = 8;

/// The program counter, and the stack pointer.
const PC: u8 = 0;

const SP: u8 = 1;

/// The code of a kernel: the functions of its bodies, the routines, a lone RET, the loop of tasks, and the code of the lines.
pub(crate) fn code_of(alloc: Global, k: &Queued) -> Result<Vec<CodeFn>, NoMemory>
    requires well { IsWellFormed (program_of k.now.program) }
    requires short { IsShort (program_of k.now.program) }
    requires tasks { length (program_of k.now.program).tasks ≤ 254 }
    ensures code { IfOk result (λ code. code.items ≡ code_of_kernel (program_of k.now.program) k.now.pop) }
    ensures checks { IfOk result (λ code. CanBeChecked (lowered (program_of k.now.program)).checks) }
{
    let middle = lower(alloc, &k.program)?;
    let mut code = select(alloc, &middle)?;
    add_routines(alloc, &mut code, &middle)?;
    add_pieces(alloc, &mut code, k)?;
    Ok(code)
}

// A function that is a lone RET.
fn lone(alloc: Global) -> Result<CodeFn, NoMemory>
    ensures { IfOk result (λ code. code ≡ lone) }
{
    let mut items = Vec::new(alloc);
    items.push(Item::Is(Instr::Two(Op2::Mov, false, Operand::Increment(SP), Operand::Reg(PC))))?;
    Ok(CodeFn {
        frame: 0,
        items: List::new(items),
        calls: List::new(Vec::new(alloc)),
    })
}

// The code of each line.
fn add_lines(alloc: Global, code: &mut Vec<CodeFn>, p: &Program) -> Result<(), NoMemory>
    ensures { OnOk result (code.new.items ≡ code.old.items ++ map (line_of (program_of p.now)) (range_with_len 0 8)) }
{
    for line in 0..LINES {
        code.push(handler_code(alloc, line, handler_of(p.handlers.as_slice(), line))?)?;
    }
    Ok(())
}

// A lone RET, the loop of tasks, which takes it where there is no task, and the code of the lines.
fn add_pieces(alloc: Global, code: &mut Vec<CodeFn>, k: &Queued) -> Result<(), NoMemory>
    requires few { length code.old.items < 2 ^ 32 }
    requires tasks { length (program_of k.now.program).tasks ≤ 254 }
    ensures { OnOk result (code.new.items ≡ code.old.items ++ pieces_of_kernel (program_of k.now.program) k.now.pop (length code.old.items)) }
{
    let none = code.len() as u32;
    code.push(lone(alloc)?)?;
    code.push(loop_code(
        alloc,
        k.program.boot,
        k.pop,
        none,
        k.program.tasks.as_slice(),
    )?)?;
    add_lines(alloc, code, &k.program)?;
    Ok(())
}
