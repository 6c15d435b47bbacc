//! The routines of all operations, by their numbers.

ghost use Rattle.std.specs.Prelude.{◌≡◌, ◌/◌, ◌%◌, IfOk};
ghost use Rattle.mid_code.specs.Help as help;
ghost use Rattle.msp_runtime.specs.Code.{Nothing};
ghost use Rattle.msp_runtime.specs.Emitted.{code_fn, operation_fns, routine_fn};
ghost use Rattle.msp_runtime.specs.Routines as routines;

use crate::operations::put_operation;
use mid_code::HelpOp;
use msp_isa::{CodeFn, Instr, Item, Op2, Operand};
use nm_base::{IntType, List, NoMemory};
use std::alloc::Global;

/// How many numbers stand for operations, used or not.
pub const OPERATIONS: u32 = 48;

/// The bytes of stack that selected code sets aside for any routine, below its return address.
pub const ROUTINE_FRAME: u16 = 58;

/// MOV @SP+, PC.
pub const RETURN: Item = Item::Is(Instr::Two(
    Op2::Mov,
    false,
    Operand::Increment(1),
    Operand::Reg(0),
));

/// The routine of each number below 48: values in registers from R12 on, and the result there. A number without an operation has
/// a lone RET. A routine calls no function, and keeps R4 to R11. Each states the frame that selected code sets aside for any routine.
///
/// Errors: `NoMemory` alone.
pub fn operation_routines(alloc: Global) -> Result<Vec<CodeFn>, NoMemory>
    ensures { IfOk result (λ code. code.items ≡ operation_fns) }
{
    let mut code = Vec::with_capacity(alloc, OPERATIONS as usize)?;
    for number in 0..OPERATIONS {
        code.push(routine(alloc, number)?)?;
    }
    Ok(code)
}

fn routine(alloc: Global, number: u32) -> Result<CodeFn, NoMemory>
    ensures { IfOk result (λ f. f ≡ code_fn (routines.code_at number)) }
{
    let Some(t) = type_at(number / 8) else {
        return lone_return(alloc);
    };
    let Some(operation) = operation_at(number % 8) else {
        return lone_return(alloc);
    };
    routine_of(alloc, t, operation)
}

fn lone_return(alloc: Global) -> Result<CodeFn, NoMemory>
    ensures { IfOk result (λ f. f ≡ code_fn Nothing) }
{
    let mut items = Vec::new(alloc);
    items.push(RETURN)?;
    Ok(routine_with(alloc, items))
}

fn routine_of(alloc: Global, t: IntType, operation: HelpOp) -> Result<CodeFn, NoMemory>
    ensures { IfOk result (λ f. f ≡ code_fn (routines.code_for t operation)) }
{
    let mut items = Vec::new(alloc);
    put_operation(&mut items, t, operation)?;
    items.push(RETURN)?;
    Ok(routine_with(alloc, items))
}

/// A routine with these items.
pub fn routine_with(alloc: Global, items: Vec<Item>) -> CodeFn
    ensures { result ≡ routine_fn items.items }
{
    CodeFn {
        frame: ROUTINE_FRAME,
        items: List::new(items),
        calls: List::new(Vec::new(alloc)),
    }
}

fn type_at(number: u32) -> Option<IntType>
    ensures { result ≡ help.type_at number }
{
    match number {
        0 => Some(IntType::I8),
        1 => Some(IntType::U8),
        2 => Some(IntType::I16),
        3 => Some(IntType::U16),
        4 => Some(IntType::I32),
        5 => Some(IntType::U32),
        _ => None,
    }
}

fn operation_at(number: u32) -> Option<HelpOp>
    ensures { result ≡ help.operation_at number }
{
    match number {
        0 => Some(HelpOp::Mul),
        1 => Some(HelpOp::Div),
        2 => Some(HelpOp::Rem),
        3 => Some(HelpOp::Shl),
        4 => Some(HelpOp::Shr),
        _ => None,
    }
}
