//! The routine of each check.

ghost use Rattle.std.specs.Prelude.{◌≡◌, ◌+◌, ◌*◌, ◌^◌, ◌<◌, ◌≤◌, ◌++◌, IfOk, OnOk, length, map};
ghost use Rattle.std.specs.List.{All};
ghost use Rattle.open_law.specs.Homes.{literal, operand_of};
ghost use Rattle.msp_runtime.specs.Code.{items_from, labels, operation_item};
ghost use Rattle.msp_runtime.specs.Pieces.{restores, shifted};
ghost use Rattle.msp_runtime.specs.Routines as routines;
ghost use Rattle.msp_checks.specs.Checks as checks;
ghost use Rattle.msp_checks.specs.Checks.{IsOfWords, IsWordRun, check_fn, check_fns, match_code, run_code, runs_code, runs_of};
ghost use Rattle.msp_checks.specs.Written.{AreOfWords, HasFewRuns, HaveFewRuns, end_items, most_runs, start_code};

use mid_code::Check;
use msp_isa::{CodeFn, Cond, Instr, Item, Op1, Op2, Operand};
use msp_runtime::{RETURN, put, put_divide, routine_with};
use nm_base::NoMemory;
use std::alloc::Global;

/// A number that is no address of a part and no remainder.
const FOUND: u16 = 0xFFFF;

/// The last address.
const LAST: u32 = 0xFFFF;

/// The labels in front of those of the runs.
const FIRST_LABEL: u32 = 5;

/// The labels of a run of some parts.
const RUN_LABELS: u32 = 3;

/// MOV #2, &FAULT.
const RAISE: Item = Item::Is(Instr::Two(
    Op2::Mov,
    false,
    Operand::Immediate(2),
    Operand::Absolute(0x104),
));

/// The routine of each check, in order: with the pointer in R12, it returns where that is the address of a part, and raises fault 2
/// where it is none. A routine calls no function, and keeps R4 to R11.
///
/// Errors: `NoMemory` alone.
pub fn check_routines(alloc: Global, checks: &[Check]) -> Result<Vec<CodeFn>, NoMemory>
    requires { HaveFewRuns checks.now }
    ensures code { IfOk result (λ code. code.items ≡ check_fns checks.now) }
    ensures words { IfOk result (λ code. AreOfWords checks.now) }
{
    let mut code = Vec::with_capacity(alloc, checks.len())?;
    for check in checks {
        code.push(check_routine(alloc, check)?)?;
    }
    Ok(code)
}

fn check_routine(alloc: Global, check: &Check) -> Result<CodeFn, NoMemory>
    requires { HasFewRuns check.now }
    ensures code { IfOk result (λ f. f ≡ check_fn check.now) }
    ensures words { IfOk result (λ f. IsOfWords check.now) }
{
    let mut items = Vec::new(alloc);
    put_start(&mut items, check.size)?;
    let label = put_runs(&mut items, check)?;
    put_end(&mut items, label)?;
    Ok(routine_with(alloc, items))
}

// The pointer is kept, and divided by the size.
fn put_start(items: &mut Vec<Item>, size: u16) -> Result<(), NoMemory>
    ensures { OnOk result (items.new.items ≡ items.old.items ++ items_from (start_code size) 0) }
{
    let keeps = Item::Is(Instr::One(Op1::Push, false, Operand::Reg(12)));
    put(items, 0, &[with_number(Op2::Mov, size, 13), keeps])?;
    put_divide(items, 0)?;
    put_restore(items)?;
    Ok(())
}

// The pointer is in R12 again.
fn put_restore(items: &mut Vec<Item>) -> Result<(), NoMemory>
    ensures { OnOk result (items.new.items ≡ items.old.items ++ restores 12) }
{
    let restored = Instr::Two(Op2::Mov, false, Operand::Indexed(1, 0), Operand::Reg(12));
    let dropped = Instr::Two(Op2::Add, false, Operand::Constant(2), Operand::Reg(1));
    put(items, 0, &[Item::Is(restored), Item::Is(dropped)])
}

// The comparisons with all runs, and the label that is free behind them.
fn put_runs(items: &mut Vec<Item>, check: &Check) -> Result<u32, NoMemory>
    requires { HasFewRuns check.now }
    ensures items { OnOk result (items.new.items ≡ items.old.items ++ items_from (runs_code check.now.size (runs_of check.now)) 5) }
    ensures label { IfOk result (λ l. l ≡ 5 + labels (runs_code check.now.size (runs_of check.now))) }
    ensures words { IfOk result (λ l. IsOfWords check.now) }
{
    if check.size == 0 {
        return Ok(FIRST_LABEL);
    }
    put_all_runs(items, check.size, check.runs.as_slice())
}

fn put_all_runs(items: &mut Vec<Item>, size: u16, runs: &[(u16, u16)]) -> Result<u32, NoMemory>
    requires some { 0 < size }
    requires few { length runs.now ≤ most_runs }
    ensures items { OnOk result (items.new.items ≡ items.old.items ++ items_from (runs_code size runs.now) 5) }
    ensures label { IfOk result (λ l. l ≡ 5 + labels (runs_code size runs.now)) }
    ensures words { IfOk result (λ l. All IsWordRun runs.now) }
{
    let mut label = FIRST_LABEL;
    for run in runs {
        label = put_run(items, size, *run, label)?;
    }
    Ok(label)
}

// A run without parts has no address of one.
fn put_run(items: &mut Vec<Item>, size: u16, run: (u16, u16), label: u32) -> Result<u32, NoMemory>
    requires some { 0 < size }
    requires room { label + 3 < 2 ^ 32 }
    ensures items { OnOk result (items.new.items ≡ items.old.items ++ items_from (run_code size run) label) }
    ensures label { IfOk result (λ l. l ≡ label + labels (run_code size run)) }
    ensures word { IsWordRun run }
{
    if run.1 == 0 {
        return Ok(label);
    }
    put_match(items, size, run, label)?;
    Ok(label + RUN_LABELS)
}

// R14 becomes `FOUND` where the run has the pointer: it is at least the first address and at most the last byte, and its remainder
// is that of the first address.
fn put_match(items: &mut Vec<Item>, size: u16, run: (u16, u16), label: u32) -> Result<(), NoMemory>
    requires some { 0 < size }
    ensures { OnOk result (items.new.items ≡ items.old.items ++ map (shifted label) (items_from (match_code size run) 0)) }
{
    put(
        items,
        label,
        &[
            with_number(Op2::Cmp, run.0, 12),
            Item::Jump(Cond::Jnc, 0),
            with_number(Op2::Mov, last_byte(size, run), 15),
            with_register(Op2::Cmp, 12, 15),
            Item::Jump(Cond::Jnc, 1),
            with_number(Op2::Cmp, run.0 % size, 14),
            Item::Jump(Cond::Jne, 2),
            with_number(Op2::Mov, FOUND, 14),
            Item::Label(2),
            Item::Label(1),
            Item::Label(0),
        ],
    )?;
    Ok(())
}

// RET, or the fault where no run had the pointer.
fn put_end(items: &mut Vec<Item>, label: u32) -> Result<(), NoMemory>
    ensures { OnOk result (items.new.items ≡ items.old.items ++ end_items label) }
{
    items.push(with_number(Op2::Cmp, FOUND, 14))?;
    items.push(Item::Jump(Cond::Jeq, label))?;
    items.push(RAISE)?;
    items.push(Item::Label(label))?;
    items.push(RETURN)?;
    Ok(())
}

// The last byte of a run of some parts, or the last address.
fn last_byte(size: u16, run: (u16, u16)) -> u16
    ensures { result ≡ checks.last_of size run }
{
    let bytes = u32::from(size) * u32::from(run.1);
    (u32::from(run.0) + bytes).saturating_sub(1).min(LAST) as u16
}

// An operation of a number on a register.
fn with_number(op: Op2, n: u16, r: u8) -> Item
    ensures { result ≡ operation_item op (literal n) r }
{
    Item::Is(Instr::Two(op, false, number(n), Operand::Reg(r)))
}

// An operation of a register on a register.
fn with_register(op: Op2, q: u8, r: u8) -> Item
    ensures { result ≡ operation_item op (routines.register q) r }
{
    Item::Is(Instr::Two(op, false, Operand::Reg(q), Operand::Reg(r)))
}

// The shortest operand of a number.
fn number(n: u16) -> Operand
    ensures { result ≡ operand_of (literal n) }
{
    match n {
        0 | 1 | 2 | 4 | 8 | 0xFFFF => Operand::Constant(n),
        _ => Operand::Immediate(n),
    }
}
