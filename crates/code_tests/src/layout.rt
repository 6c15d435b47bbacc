//! Programs at the borders of `layout`: the reach of jumps, the rooms of code and RAM, and a long row of calls.

ghost use Rattle.std.specs.Prelude.{◌≡◌, ◌<◌, ◌≤◌, IfOk, [], ◌∷◌, length, replicate};
ghost use Rattle.msp_isa.specs.declared.code.Item.TheVariants.{CallFn as call_of};
ghost use Rattle.msp_layout.specs.Onward.{AreOnward, IsPair};
ghost use Rattle.msp_layout.specs.Rows.{ret};

use msp_isa::{CodeFn, Cond, Image, Instr, Item, Op2, Operand};
use msp_layout::layout;
use nm_base::{Fault, List, NoMemory, Room};
use std::alloc::Global;

// MOV @SP+, PC, and its word
const RET: Item = Item::Is(Instr::Two(Op2::Mov, false, Operand::Increment(1), Operand::Reg(0)));

const R: u16 = 0x4130;

fn lone_return(alloc: Global) -> Result<CodeFn, NoMemory>
    ensures items { IfOk result (λ f. f.items ≡ ret ∷ []) }
    ensures calls { IfOk result (λ f. f.calls ≡ []) }
{
    let mut items = Vec::new(alloc);
    items.push(RET)?;
    Ok(CodeFn {
        frame: 4,
        items: List::new(items),
        calls: List::new(Vec::new(alloc)),
    })
}

fn caller(alloc: Global, frame: u16, callee: u32) -> Result<CodeFn, NoMemory>
    ensures items { IfOk result (λ f. f.items ≡ call_of callee ∷ ret ∷ []) }
    ensures calls { IfOk result (λ f. f.calls ≡ callee ∷ []) }
{
    let mut items = Vec::new(alloc);
    items.push(Item::CallFn(callee))?;
    items.push(RET)?;
    let mut calls = Vec::new(alloc);
    calls.push(callee)?;
    Ok(CodeFn {
        frame,
        items: List::new(items),
        calls: List::new(calls),
    })
}

// Starts at the first function; all lines lead to one.
fn lay(alloc: Global, code: &[CodeFn], line: u32, data: u32) -> Result<Image, Fault>
    requires onward { AreOnward code.now }
    requires line { line < length code.now }
{
    layout(alloc, code, &[line; 8], 0, data)
}

// So many functions that each call the next one, every second one with a frame of two bytes; the last only returns.
fn lay_chain(alloc: Global, callers: u32, line: u32, data: u32) -> Result<Image, Fault>
    requires { line ≤ callers }
{
    let mut code = Vec::new(alloc);
    for f in 0..callers {
        code.push(caller(alloc, (f % 2 * 2) as u16, f + 1)?)?;
    }
    code.push(lone_return(alloc)?)?;
    lay(alloc, code.as_slice(), line, data)
}

fn many_returns(alloc: Global, count: u16) -> Result<Vec<Item>, NoMemory>
    ensures { IfOk result (λ v. v.items ≡ replicate count ret) }
{
    Ok(vec![in alloc; RET; usize::from(count)]?)
}

// One function: so many returns, between two items.
fn lay_between(alloc: Global, first: Item, returns: u16, last: Item) -> Result<Image, Fault>
    requires { IsPair first last }
{
    let mut items = Vec::new(alloc);
    items.push(first)?;
    items.extend_from_slice(many_returns(alloc, returns)?.as_slice())?;
    items.push(last)?;
    let code = [CodeFn {
        frame: 0,
        items: List::new(items),
        calls: List::new(Vec::new(alloc)),
    }];
    lay(alloc, &code, 0, 0)
}

#[test]
fn jumps_forth_reach_511_words(rt: HostRuntime) {
    for (condition, returns, words, begin) in [
        (Cond::Jmp, 511, 512, [0x3DFF, R, R, R]),
        (Cond::Jmp, 512, 514, [0x4030, 0x4404, R, R]),
        (Cond::Jeq, 511, 512, [0x25FF, R, R, R]),
        (Cond::Jeq, 512, 515, [0x2002, 0x4030, 0x4406, R]),
        (Cond::Jn, 511, 512, [0x31FF, R, R, R]),
        (Cond::Jn, 512, 516, [0x3001, 0x3C02, 0x4030, 0x4408]),
    ] {
        let jump = Item::Jump(condition, 0);
        let image = lay_between(rt.alloc(), jump, returns, Item::Label(0)).expect(&rt, "an image");
        assert_eq!(rt; image.code.len(), words);
        assert!(rt; image.code.as_slice().starts_with(&begin));
    }
}

#[test]
fn jumps_back_reach_512_words(rt: HostRuntime) {
    for (condition, returns, words, end) in [
        (Cond::Jmp, 511, 512, [R, R, R, 0x3E00]),
        (Cond::Jmp, 512, 514, [R, R, 0x4030, 0x4000]),
        (Cond::Jeq, 511, 512, [R, R, R, 0x2600]),
        (Cond::Jeq, 512, 515, [R, 0x2002, 0x4030, 0x4000]),
        (Cond::Jn, 511, 512, [R, R, R, 0x3200]),
        (Cond::Jn, 512, 516, [0x3001, 0x3C02, 0x4030, 0x4000]),
    ] {
        let jump = Item::Jump(condition, 0);
        let image = lay_between(rt.alloc(), Item::Label(0), returns, jump).expect(&rt, "an image");
        assert_eq!(rt; image.code.len(), words);
        assert!(rt; image.code.as_slice().ends_with(&end));
    }
}

#[test]
fn code_fills_49120_bytes(rt: HostRuntime) {
    let image = lay_between(rt.alloc(), RET, 24_558, RET).expect(&rt, "an image");
    assert_eq!(rt; image.code.len(), 24_560);
    let more = lay_between(rt.alloc(), RET, 24_559, RET);
    assert!(rt; matches!(more, Err(Fault::TooLarge(Room::Code, 49_122))));
}

#[test]
fn data_and_stack_fill_10240_bytes(rt: HostRuntime) {
    let image = lay_chain(rt.alloc(), 0, 0, 10_232).expect(&rt, "an image");
    assert_eq!(rt; image.code.as_slice(), [R].as_slice());
    assert_eq!(rt; image.vectors, [0x4000; 16]);
    assert_eq!(rt; (image.ram, image.stack), (10_232, 8));
    let more = lay_chain(rt.alloc(), 0, 0, 10_233);
    assert!(rt; matches!(more, Err(Fault::TooLarge(Room::Ram, 10_241))));
}

#[test]
fn bounds_the_stack_of_500_functions(rt: HostRuntime) {
    let image = lay_chain(rt.alloc(), 499, 250, 0).expect(&rt, "an image");
    assert_eq!(rt; image.code.len(), 499 * 3 + 1);
    assert_eq!(rt;
        (image.vectors[7], image.vectors[8]),
        (0x4000 + 250 * 6, 0x4000)
    );
    // from reset 249 frames of two bytes, 499 calls and the last frame; from the lines 124, 249 and the same
    let base = 249 * 2 + 499 * 2 + 4;
    let handlers = 124 * 2 + 249 * 2 + 4;
    assert_eq!(rt; image.stack, base + handlers);
}
