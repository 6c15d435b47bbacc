//! The code of calls and returns, and of the entry of a function.

ghost use Rattle.std.specs.Prelude.{◌≡◌, ◌∷◌, [], ◌++◌, ◌+◌, ◌*◌, ◌/◌, ◌<◌, ◌≤◌, ◌^◌, OnOk, length, slice_index_or};
ghost use Rattle.mid_code.specs.Form.{AreBelow};
ghost use Rattle.mid_code.specs.Machine.{fn_of};
ghost use Rattle.mid_code.specs.declared.instr.Mid.TheVariants as mid;
ghost use Rattle.msp_select.specs.Frames.{count_pushed, frame_home, own_bytes};
ghost use Rattle.msp_select.specs.Select as select;
ghost use Rattle.msp_select.specs.Select.{items_of};
ghost use Rattle.select_emitter.specs.Pushes.{chosen};
ghost use Rattle.select_emitter.specs.Scoped.{Fits, IsFrame, IsScope, items_in, no_frame};

use crate::frames::Frame;
use crate::operands::{PC, SCRATCH, SP, literal};
use crate::pieces::value;
use crate::put::{put, put_move, put_push, put_two};
use crate::scope::Scope;
use mid_code::FIRST_CHECK;
use msp_isa::{Cond, Instr, Item, Op2, Operand};
use nm_base::NoMemory;

/// How many operations have a place in front of the checks.
const OPERATIONS: u32 = 48;

/// From so many words on, the entry's zeros are pushed in a loop.
const LOOP_FROM: u16 = 6;

/// The code before the first instruction: all of the frame and all values but the parameters are 0.
pub(crate) fn put_entry(items: &mut Vec<Item>, own: u16) -> Result<(), NoMemory>
    ensures { OnOk result (items.new.items ≡ items.old.items ++ items_of (select.entry_of own)) }
{
    if own / 2 < LOOP_FROM {
        put_zeros(items, own / 2)
    } else {
        put_zero_loop(items, own / 2)
    }
}

fn put_zero(items: &mut Vec<Item>) -> Result<(), NoMemory>
    ensures { OnOk result (items.new.items ≡ items.old.items ++ items_of (select.push_zero ∷ [])) }
{
    put_push(items, Operand::Constant(0))
}

// One after another.
fn put_zeros(items: &mut Vec<Item>, n: u16) -> Result<(), NoMemory>
    ensures { OnOk result (items.new.items ≡ items.old.items ++ items_of (select.zeros n)) }
{
    for _ in 0..n {
        put_zero(items)?;
    }
    Ok(())
}

// MOV #n, R12; PUSH #0; SUB #1, R12; JNE to the PUSH.
fn put_zero_loop(items: &mut Vec<Item>, n: u16) -> Result<(), NoMemory>
    ensures { OnOk result (items.new.items ≡ items.old.items ++ items_of (select.zero_loop n)) }
{
    put_move(items, literal(n), SCRATCH)?;
    put_zero(items)?;
    put_two(items, Op2::Sub, Operand::Constant(1), SCRATCH)?;
    put(items, Item::Is(Instr::Jump(Cond::Jne, -3)))
}

// SP is raised by so many bytes.
fn put_raised(items: &mut Vec<Item>, bytes: u16) -> Result<(), NoMemory>
    ensures { OnOk result (items.new.items ≡ items.old.items ++ items_of (select.raised bytes)) }
{
    if bytes == 0 {
        return Ok(());
    }
    put_two(items, Op2::Add, literal(bytes), SP)
}

// A value to a register.
fn put_given(scope: &Scope<'_>, items: &mut Vec<Item>, r: u8, x: u32) -> Result<(), NoMemory>
    requires scope { IsScope scope.now }
    requires value { x < scope.now.function.now.values }
    ensures { OnOk result (items.new.items ≡ items.old.items ++ items_of (select.gives scope.now.code.now (frame_home scope.now.function.now) (own_bytes scope.now.function.now) r (x ∷ []))) }
{
    put_move(items, value(scope, x), Operand::Reg(r))
}

// Values to registers from R12 on.
fn put_gives(scope: &Scope<'_>, items: &mut Vec<Item>, vs: &[u32]) -> Result<(), NoMemory>
    requires scope { IsScope scope.now }
    requires values { AreBelow scope.now.function.now.values vs.now }
    requires few { length vs.now ≤ 4 }
    ensures { OnOk result (items.new.items ≡ items.old.items ++ items_of (select.gives scope.now.code.now (frame_home scope.now.function.now) (own_bytes scope.now.function.now) 12 vs.now)) }
{
    let mut r = 12;
    for x in vs {
        put_given(scope, items, r, *x)?;
        r += 1;
    }
    Ok(())
}

// A register to a value.
fn put_taken(scope: &Scope<'_>, items: &mut Vec<Item>, r: u8, x: u32) -> Result<(), NoMemory>
    requires scope { IsScope scope.now }
    requires value { x < scope.now.function.now.values }
    ensures { OnOk result (items.new.items ≡ items.old.items ++ items_of (select.takes scope.now.code.now (frame_home scope.now.function.now) (own_bytes scope.now.function.now) r (x ∷ []))) }
{
    put_move(items, Operand::Reg(r), value(scope, x))
}

// Registers from R12 on to values.
fn put_takes(scope: &Scope<'_>, items: &mut Vec<Item>, vs: &[u32]) -> Result<(), NoMemory>
    requires scope { IsScope scope.now }
    requires values { AreBelow scope.now.function.now.values vs.now }
    requires few { length vs.now ≤ 4 }
    ensures { OnOk result (items.new.items ≡ items.old.items ++ items_of (select.takes scope.now.code.now (frame_home scope.now.function.now) (own_bytes scope.now.function.now) 12 vs.now)) }
{
    let mut r = 12;
    for x in vs {
        put_taken(scope, items, r, *x)?;
        r += 1;
    }
    Ok(())
}

// PUSH of a value, where so many words more lie on the stack.
fn put_pushed(scope: &Scope<'_>, items: &mut Vec<Item>, deeper: u16, x: u32) -> Result<(), NoMemory>
    requires scope { IsScope scope.now }
    requires value { x < scope.now.function.now.values }
    requires deeper { deeper ≤ 5120 }
    ensures { OnOk result (items.new.items ≡ items.old.items ++ items_of (select.pushes scope.now.code.now (frame_home scope.now.function.now) (own_bytes scope.now.function.now) deeper (x ∷ []))) }
{
    put_push(
        items,
        Operand::Indexed(1, scope.frame.homes.as_slice()[x as usize] + 2 * deeper),
    )
}

// PUSH of a value where its flag is set, and how many words more lie on the stack then.
fn put_flagged(
    scope: &Scope<'_>,
    items: &mut Vec<Item>,
    flag: bool,
    deeper: &mut u16,
    x: u32,
) -> Result<(), NoMemory>
    requires scope { IsScope scope.now }
    requires value { x < scope.now.function.now.values }
    requires deeper { deeper.old + length (chosen (flag ∷ []) (x ∷ [])) ≤ 5120 }
    ensures items { OnOk result (items.new.items ≡ items.old.items ++ items_of (select.pushes scope.now.code.now (frame_home scope.now.function.now) (own_bytes scope.now.function.now) deeper.old (chosen (flag ∷ []) (x ∷ [])))) }
    ensures deeper { OnOk result (deeper.new ≡ deeper.old + length (chosen (flag ∷ []) (x ∷ []))) }
{
    if flag {
        put_pushed(scope, items, *deeper, x)?;
        *deeper += 1;
    }
    Ok(())
}

// PUSH of those values whose flag is set.
#[tactic(auto, using(crate::proofs::Pushing::pushes_next, crate::proofs::Pushing::few_next, crate::proofs::Pushing::below_next))]
fn put_pushes(
    scope: &Scope<'_>,
    items: &mut Vec<Item>,
    flags: &[bool],
    vs: &[u32],
) -> Result<(), NoMemory>
    requires scope { IsScope scope.now }
    requires values { AreBelow scope.now.function.now.values vs.now }
    requires few { length (chosen flags.now vs.now) ≤ 5120 }
    ensures { OnOk result (items.new.items ≡ items.old.items ++ items_of (select.pushes scope.now.code.now (frame_home scope.now.function.now) (own_bytes scope.now.function.now) 0 (chosen flags.now vs.now))) }
{
    let mut deeper = 0;
    let mut flags = flags;
    let mut vs = vs;
    while let Some((flag, other_flags)) = flags.split_first() {
        let Some((x, others)) = vs.split_first() else {
            return Ok(());
        };
        put_flagged(scope, items, *flag, &mut deeper, *x)?;
        flags = other_flags;
        vs = others;
    }
    Ok(())
}

// The frame of a function.
fn frame_of<'a>(scope: &Scope<'a>, g: u32) -> &'a Frame
    requires scope { IsScope scope.now }
    requires function { g < length scope.now.code.now.fns }
    ensures { IsFrame (fn_of scope.now.code.now g) result.now }
{
    &scope.frames[g as usize]
}

/// A call of a function: what it is passed is pushed, and is taken from the stack behind it; what it gives is taken from R12 and
/// R13.
#[tactic(auto, using(crate::proofs::Pushing::chosen_few, crate::proofs::Pushing::chosen_is))]
pub(crate) fn put_call(
    scope: &Scope<'_>,
    items: &mut Vec<Item>,
    g: u32,
    ins: &[u32],
    outs: &[u32],
) -> Result<(), NoMemory>
    requires scope { IsScope scope.now }
    requires fits { Fits scope.now.code.now scope.now.function.now.values (mid.Call g ins.now outs.now) }
    ensures { OnOk result (items.new.items ≡ items.old.items ++ items_in scope.now (mid.Call g ins.now outs.now)) }
{
    let callee = frame_of(scope, g);
    put_pushes(scope, items, callee.pushed.as_slice(), ins)?;
    put(items, Item::CallFn(g))?;
    put_raised(items, 2 * callee.words)?;
    put_takes(scope, items, outs)
}

// The place of a helper's routine behind so many functions.
fn routine_of(fns: u32, h: u32) -> u32
    requires { select.routine_of fns h < 2 ^ 32 }
    ensures { result ≡ select.routine_of fns h }
{
    if h < FIRST_CHECK {
        fns + h
    } else {
        fns + OPERATIONS + (h - FIRST_CHECK)
    }
}

/// A call of a helper's routine, which takes values in registers from R12 on.
pub(crate) fn put_help(
    scope: &Scope<'_>,
    items: &mut Vec<Item>,
    h: u32,
    ins: &[u32],
    outs: &[u32],
) -> Result<(), NoMemory>
    requires scope { IsScope scope.now }
    requires fits { Fits scope.now.code.now scope.now.function.now.values (mid.Help h ins.now outs.now) }
    ensures { OnOk result (items.new.items ≡ items.old.items ++ items_in scope.now (mid.Help h ins.now outs.now)) }
{
    put_gives(scope, items, ins)?;
    let routine = routine_of(scope.code.fns.as_slice().len() as u32, h);
    put(items, Item::CallFn(routine))?;
    put_takes(scope, items, outs)
}

/// A return: values to R12 and R13, SP to the return address, and RET.
pub(crate) fn put_return(
    scope: &Scope<'_>,
    items: &mut Vec<Item>,
    vs: &[u32],
) -> Result<(), NoMemory>
    requires scope { IsScope scope.now }
    requires fits { Fits scope.now.code.now scope.now.function.now.values (mid.Ret vs.now) }
    ensures { OnOk result (items.new.items ≡ items.old.items ++ items_in scope.now (mid.Ret vs.now)) }
{
    put_gives(scope, items, vs)?;
    put_raised(items, scope.frame.own)?;
    put_move(items, Operand::Increment(1), PC)
}
