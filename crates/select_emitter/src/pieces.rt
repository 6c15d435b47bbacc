//! The code of each instruction that stays in its function.

ghost use Rattle.std.specs.Prelude.{◌≡◌, ◌∷◌, [], ◌++◌, ◌<◌, OnOk, slice_index, true, false};
ghost use Rattle.mid_code.specs.declared.instr.Mid.TheVariants as mid;
ghost use Rattle.mid_code.specs.declared.instr.Op.TheVariants as ops;
ghost use Rattle.msp_isa.specs.declared.instr.Cond.TheVariants as conditions;
ghost use Rattle.msp_isa.specs.declared.instr.Operand.TheVariants.{Indexed as indexed};
ghost use Rattle.msp_isa.specs.declared.code.Item.TheVariants as item;
ghost use Rattle.msp_select.specs.Frames.{frame_home, frame_place, own_bytes};
ghost use Rattle.msp_select.specs.Select as select;
ghost use Rattle.msp_select.specs.Select.{items_of};
ghost use Rattle.select_emitter.specs.Scoped.{Fits, IsScope, items_in};

use crate::operands::{SCRATCH, SP, SR, is_turned, literal, operator, taken_by};
use crate::put::{put, put_byte_move, put_move, put_two};
use crate::scope::Scope;
use mid_code::{Op, Test};
use msp_isa::{Cond, Item, Op2, Operand};
use nm_base::NoMemory;

/// The port that stops the processor.
const FAULT: Operand = Operand::Absolute(0x0104);

/// The home of a value.
pub(crate) fn value(scope: &Scope<'_>, v: u32) -> Operand
    requires scope { IsScope scope.now }
    requires value { v < scope.now.function.now.values }
    ensures { result ≡ indexed 1 (frame_place scope.now.function.now v) }
{
    Operand::Indexed(1, scope.frame.homes.as_slice()[v as usize])
}

pub(crate) fn put_set(
    scope: &Scope<'_>,
    items: &mut Vec<Item>,
    v: u32,
    n: u16,
) -> Result<(), NoMemory>
    requires scope { IsScope scope.now }
    requires fits { Fits scope.now.code.now scope.now.function.now.values (mid.Set v n) }
    ensures { OnOk result (items.new.items ≡ items.old.items ++ items_in scope.now (mid.Set v n)) }
{
    put_move(items, literal(n), value(scope, v))
}

pub(crate) fn put_copy(
    scope: &Scope<'_>,
    items: &mut Vec<Item>,
    v: u32,
    x: u32,
) -> Result<(), NoMemory>
    requires scope { IsScope scope.now }
    requires fits { Fits scope.now.code.now scope.now.function.now.values (mid.Move v x) }
    ensures { OnOk result (items.new.items ≡ items.old.items ++ items_in scope.now (mid.Move v x)) }
{
    put_move(items, value(scope, x), value(scope, v))
}

pub(crate) fn put_binary(
    scope: &Scope<'_>,
    items: &mut Vec<Item>,
    op: Op,
    v: u32,
    x: u32,
    y: u32,
) -> Result<(), NoMemory>
    requires scope { IsScope scope.now }
    requires fits { Fits scope.now.code.now scope.now.function.now.values (mid.Bin op v x y) }
    ensures { OnOk result (items.new.items ≡ items.old.items ++ items_in scope.now (mid.Bin op v x y)) }
{
    if v == x {
        return put_two(items, operator(op), value(scope, y), value(scope, v));
    }
    put_move(items, value(scope, x), SCRATCH)?;
    put_two(items, operator(op), value(scope, y), SCRATCH)?;
    put_move(items, SCRATCH, value(scope, v))
}

pub(crate) fn put_carry(
    scope: &Scope<'_>,
    items: &mut Vec<Item>,
    op: Op,
    v: u32,
    x: u32,
    y: u32,
) -> Result<(), NoMemory>
    requires scope { IsScope scope.now }
    requires fits { Fits scope.now.code.now scope.now.function.now.values (mid.Carry op v x y) }
    ensures { OnOk result (items.new.items ≡ items.old.items ++ items_in scope.now (mid.Carry op v x y)) }
{
    match op {
        Op::Add => put_carry_of_add(scope, items, v, x, y),
        Op::Sub => put_borrow(scope, items, v, x, y),
        Op::And | Op::Or | Op::Xor => put_move(items, literal(0), value(scope, v)),
    }
}

fn put_carry_of_add(
    scope: &Scope<'_>,
    items: &mut Vec<Item>,
    v: u32,
    x: u32,
    y: u32,
) -> Result<(), NoMemory>
    requires scope { IsScope scope.now }
    requires v { v < scope.now.function.now.values }
    requires x { x < scope.now.function.now.values }
    requires y { y < scope.now.function.now.values }
    ensures { OnOk result (items.new.items ≡ items.old.items ++ items_in scope.now (mid.Carry ops.Add v x y)) }
{
    put_move(items, value(scope, x), SCRATCH)?;
    put_two(items, Op2::Add, value(scope, y), SCRATCH)?;
    put_move(items, literal(0), SCRATCH)?;
    put_two(items, Op2::Addc, literal(0), SCRATCH)?;
    put_move(items, SCRATCH, value(scope, v))
}

// C is set where nothing was borrowed.
fn put_borrow(
    scope: &Scope<'_>,
    items: &mut Vec<Item>,
    v: u32,
    x: u32,
    y: u32,
) -> Result<(), NoMemory>
    requires scope { IsScope scope.now }
    requires v { v < scope.now.function.now.values }
    requires x { x < scope.now.function.now.values }
    requires y { y < scope.now.function.now.values }
    ensures { OnOk result (items.new.items ≡ items.old.items ++ items_in scope.now (mid.Carry ops.Sub v x y)) }
{
    put_two(items, Op2::Cmp, value(scope, y), value(scope, x))?;
    put_move(items, literal(0), SCRATCH)?;
    put_two(items, Op2::Addc, literal(0), SCRATCH)?;
    put_two(items, Op2::Xor, literal(1), SCRATCH)?;
    put_move(items, SCRATCH, value(scope, v))
}

// The word or byte that R12 leads to.
fn put_fetched(
    scope: &Scope<'_>,
    items: &mut Vec<Item>,
    is_word: bool,
    v: u32,
) -> Result<(), NoMemory>
    requires scope { IsScope scope.now }
    requires value { v < scope.now.function.now.values }
    ensures { OnOk result (items.new.items ≡ items.old.items ++ items_of (select.fetched scope.now.code.now (frame_home scope.now.function.now) (own_bytes scope.now.function.now) is_word v)) }
{
    if is_word {
        put_move(items, Operand::Indirect(12), value(scope, v))
    } else {
        put_byte_move(items, Operand::Indirect(12), SCRATCH)?;
        put_move(items, SCRATCH, value(scope, v))
    }
}

// A value to the word or byte that R12 leads to.
fn put_stored(
    scope: &Scope<'_>,
    items: &mut Vec<Item>,
    is_word: bool,
    v: u32,
) -> Result<(), NoMemory>
    requires scope { IsScope scope.now }
    requires value { v < scope.now.function.now.values }
    ensures { OnOk result (items.new.items ≡ items.old.items ++ items_of (select.stored scope.now.code.now (frame_home scope.now.function.now) (own_bytes scope.now.function.now) is_word v)) }
{
    if is_word {
        put_move(items, value(scope, v), Operand::Indexed(12, 0))
    } else {
        put_byte_move(items, value(scope, v), Operand::Indexed(12, 0))
    }
}

// The address of a place of the frame to R12.
fn put_frame_address(scope: &Scope<'_>, items: &mut Vec<Item>, x: u32) -> Result<(), NoMemory>
    requires scope { IsScope scope.now }
    requires value { x < scope.now.function.now.values }
    ensures { OnOk result (items.new.items ≡ items.old.items ++ items_of (select.frame_address scope.now.code.now (frame_home scope.now.function.now) (own_bytes scope.now.function.now) x)) }
{
    put_move(items, value(scope, x), SCRATCH)?;
    put_two(items, Op2::Add, SP, SCRATCH)
}

pub(crate) fn put_load(
    scope: &Scope<'_>,
    items: &mut Vec<Item>,
    is_word: bool,
    v: u32,
    x: u32,
) -> Result<(), NoMemory>
    requires scope { IsScope scope.now }
    requires fits { Fits scope.now.code.now scope.now.function.now.values (mid.Load is_word v x) }
    ensures { OnOk result (items.new.items ≡ items.old.items ++ items_in scope.now (mid.Load is_word v x)) }
{
    put_move(items, value(scope, x), SCRATCH)?;
    put_fetched(scope, items, is_word, v)
}

pub(crate) fn put_store(
    scope: &Scope<'_>,
    items: &mut Vec<Item>,
    is_word: bool,
    v: u32,
    x: u32,
) -> Result<(), NoMemory>
    requires scope { IsScope scope.now }
    requires fits { Fits scope.now.code.now scope.now.function.now.values (mid.Store is_word v x) }
    ensures { OnOk result (items.new.items ≡ items.old.items ++ items_in scope.now (mid.Store is_word v x)) }
{
    put_move(items, value(scope, x), SCRATCH)?;
    put_stored(scope, items, is_word, v)
}

pub(crate) fn put_peek(
    scope: &Scope<'_>,
    items: &mut Vec<Item>,
    is_word: bool,
    v: u32,
    x: u32,
) -> Result<(), NoMemory>
    requires scope { IsScope scope.now }
    requires fits { Fits scope.now.code.now scope.now.function.now.values (mid.Peek is_word v x) }
    ensures { OnOk result (items.new.items ≡ items.old.items ++ items_in scope.now (mid.Peek is_word v x)) }
{
    put_frame_address(scope, items, x)?;
    put_fetched(scope, items, is_word, v)
}

pub(crate) fn put_poke(
    scope: &Scope<'_>,
    items: &mut Vec<Item>,
    is_word: bool,
    v: u32,
    x: u32,
) -> Result<(), NoMemory>
    requires scope { IsScope scope.now }
    requires fits { Fits scope.now.code.now scope.now.function.now.values (mid.Poke is_word v x) }
    ensures { OnOk result (items.new.items ≡ items.old.items ++ items_in scope.now (mid.Poke is_word v x)) }
{
    put_frame_address(scope, items, x)?;
    put_stored(scope, items, is_word, v)
}

pub(crate) fn put_in(
    scope: &Scope<'_>,
    items: &mut Vec<Item>,
    v: u32,
    port: u16,
) -> Result<(), NoMemory>
    requires scope { IsScope scope.now }
    requires fits { Fits scope.now.code.now scope.now.function.now.values (mid.In v port) }
    ensures { OnOk result (items.new.items ≡ items.old.items ++ items_in scope.now (mid.In v port)) }
{
    put_move(items, Operand::Absolute(port), value(scope, v))
}

pub(crate) fn put_out(
    scope: &Scope<'_>,
    items: &mut Vec<Item>,
    port: u16,
    v: u32,
) -> Result<(), NoMemory>
    requires scope { IsScope scope.now }
    requires fits { Fits scope.now.code.now scope.now.function.now.values (mid.Out port v) }
    ensures { OnOk result (items.new.items ≡ items.old.items ++ items_in scope.now (mid.Out port v)) }
{
    put_move(items, value(scope, v), Operand::Absolute(port))
}

pub(crate) fn put_branch(
    scope: &Scope<'_>,
    items: &mut Vec<Item>,
    test: Test,
    x: u32,
    y: u32,
    l: u32,
) -> Result<(), NoMemory>
    requires scope { IsScope scope.now }
    requires fits { Fits scope.now.code.now scope.now.function.now.values (mid.Branch test x y l) }
    ensures { OnOk result (items.new.items ≡ items.old.items ++ items_in scope.now (mid.Branch test x y l)) }
{
    put_compared(scope, items, test, x, y)?;
    put(items, Item::Jump(taken_by(test), l))
}

fn put_compared(
    scope: &Scope<'_>,
    items: &mut Vec<Item>,
    test: Test,
    x: u32,
    y: u32,
) -> Result<(), NoMemory>
    requires scope { IsScope scope.now }
    requires x { x < scope.now.function.now.values }
    requires y { y < scope.now.function.now.values }
    ensures { OnOk result (items.new.items ≡ items.old.items ++ items_of (select.compared scope.now.code.now (frame_home scope.now.function.now) (own_bytes scope.now.function.now) test x y ∷ [])) }
{
    if is_turned(test) {
        put_two(items, Op2::Cmp, value(scope, x), value(scope, y))
    } else {
        put_two(items, Op2::Cmp, value(scope, y), value(scope, x))
    }
}

/// A jump to a label, always taken.
pub(crate) fn put_jump(items: &mut Vec<Item>, l: u32) -> Result<(), NoMemory>
    ensures { OnOk result (items.new.items ≡ items.old.items ++ item.Jump conditions.Jmp l ∷ []) }
{
    put(items, Item::Jump(Cond::Jmp, l))
}

// An instruction that does nothing.
pub(crate) fn put_nop(items: &mut Vec<Item>) -> Result<(), NoMemory>
    ensures { OnOk result (items.new.items ≡ items.old.items ++ items_of (select.nop [] ∷ [])) }
{
    put_move(items, Operand::Constant(0), Operand::Reg(3))
}

/// An atomic statement begins, and the status is saved at a place of the frame: MOV SR, o(SP); BIC #8, SR; NOP.
pub(crate) fn put_begin(scope: &Scope<'_>, items: &mut Vec<Item>, o: u16) -> Result<(), NoMemory>
    ensures { OnOk result (items.new.items ≡ items.old.items ++ items_in scope.now (mid.Begin o)) }
{
    put_move(items, SR, Operand::Indexed(1, o))?;
    put_two(items, Op2::Bic, Operand::Constant(8), SR)?;
    put_nop(items)
}

/// It ends: MOV o(SP), SR.
pub(crate) fn put_end(scope: &Scope<'_>, items: &mut Vec<Item>, o: u16) -> Result<(), NoMemory>
    ensures { OnOk result (items.new.items ≡ items.old.items ++ items_in scope.now (mid.End o)) }
{
    put_move(items, Operand::Indexed(1, o), SR)
}

/// MOV #code, &FAULT.
pub(crate) fn put_fault(scope: &Scope<'_>, items: &mut Vec<Item>, code: u8) -> Result<(), NoMemory>
    ensures { OnOk result (items.new.items ≡ items.old.items ++ items_in scope.now (mid.Fault code)) }
{
    put_move(items, Operand::Immediate(u16::from(code)), FAULT)
}
