//! The program of the worked rows, selected.

ghost use Rattle.std.specs.Prelude.{◌≡◌, ◌∷◌, [], ◌++◌, IfOk, OnOk};
ghost use Rattle.mid_code.specs.declared.instr.Mid.TheVariants as mid;
ghost use Rattle.select_emitter.specs.Rows as rows;

use mid_code::{Check, Mid, MidCode, MidFn, Op, Test};
use msp_isa::{CodeFn, Instr, Item, Op1, Op2, Operand};
use nm_base::{List, NoMemory};
use select_emitter::select;
use std::alloc::Global;

fn put(code: &mut Vec<Mid>, instr: Mid) -> Result<(), NoMemory>
    ensures { OnOk result (code.new.items ≡ code.old.items ++ instr ∷ []) }
{
    code.push(instr)?;
    Ok(())
}

fn one(alloc: Global, v: u32) -> Result<List<u32>, NoMemory>
    ensures { IfOk result (λ vs. vs ≡ v ∷ []) }
{
    let values = Vec::from_array(alloc, [v])?;
    Ok(List::new(values))
}

fn put_numbers(code: &mut Vec<Mid>) -> Result<(), NoMemory>
    ensures { OnOk result (code.new.items ≡ code.old.items ++ rows.numbers) }
{
    put(code, Mid::Set(0, 300))?;
    put(code, Mid::Set(1, 1))?;
    put(code, Mid::Move(2, 0))?;
    put(code, Mid::Bin(Op::Add, 0, 0, 1))?;
    put(code, Mid::Bin(Op::Sub, 2, 0, 1))?;
    put(code, Mid::Carry(Op::Add, 2, 0, 1))?;
    put(code, Mid::Carry(Op::Sub, 2, 0, 1))
}

fn put_accesses(code: &mut Vec<Mid>) -> Result<(), NoMemory>
    ensures { OnOk result (code.new.items ≡ code.old.items ++ rows.accesses) }
{
    put(code, Mid::Load(true, 2, 0))?;
    put(code, Mid::Load(false, 2, 0))?;
    put(code, Mid::Store(true, 2, 0))?;
    put(code, Mid::Store(false, 2, 0))?;
    put(code, Mid::Peek(false, 2, 0))?;
    put(code, Mid::Poke(true, 2, 0))?;
    put(code, Mid::In(1, 0x0120))
}

fn put_atomic(code: &mut Vec<Mid>) -> Result<(), NoMemory>
    ensures { OnOk result (code.new.items ≡ code.old.items ++ rows.atomic) }
{
    put(code, Mid::Tick)?;
    put(code, Mid::Begin(0))?;
    put(code, Mid::Out(0x0122, 1))?;
    put(code, Mid::End(0))
}

fn put_jumps(code: &mut Vec<Mid>) -> Result<(), NoMemory>
    ensures { OnOk result (code.new.items ≡ code.old.items ++ rows.jumps) }
{
    put(code, Mid::Label(7))?;
    put(code, Mid::Branch(Test::LeU, 0, 1, 7))?;
    put(code, Mid::Branch(Test::Lt, 0, 1, 7))?;
    put(code, Mid::Jump(7))
}

fn call(alloc: Global) -> Result<Mid, NoMemory>
    ensures { IfOk result (λ i. i ≡ mid.Call 1 (0 ∷ 1 ∷ []) (2 ∷ [])) }
{
    let passed = Vec::from_array(alloc, [0, 1])?;
    let taken = one(alloc, 2)?;
    Ok(Mid::Call(1, List::new(passed), taken))
}

fn shift(alloc: Global) -> Result<Mid, NoMemory>
    ensures { IfOk result (λ i. i ≡ mid.Help 35 (0 ∷ 1 ∷ 2 ∷ []) (0 ∷ 1 ∷ [])) }
{
    let passed = Vec::from_array(alloc, [0, 1, 2])?;
    let taken = Vec::from_array(alloc, [0, 1])?;
    Ok(Mid::Help(35, List::new(passed), List::new(taken)))
}

fn check(alloc: Global) -> Result<Mid, NoMemory>
    ensures { IfOk result (λ i. i ≡ mid.Help 64 (0 ∷ []) []) }
{
    let passed = one(alloc, 0)?;
    Ok(Mid::Help(64, passed, List::new(Vec::new(alloc))))
}

fn put_calls(alloc: Global, code: &mut Vec<Mid>) -> Result<(), NoMemory>
    ensures { OnOk result (code.new.items ≡ code.old.items ++ rows.calls) }
{
    put(code, call(alloc)?)?;
    put(code, shift(alloc)?)?;
    put(code, check(alloc)?)?;
    put(code, Mid::Fault(3))?;
    put(code, Mid::Ret(List::new(Vec::new(alloc))))
}

fn main_code(alloc: Global) -> Result<List<Mid>, NoMemory>
    ensures { IfOk result (λ code. code ≡ rows.numbers ++ (rows.accesses ++ (rows.atomic ++ (rows.jumps ++ rows.calls)))) }
{
    let mut code = Vec::new(alloc);
    put_numbers(&mut code)?;
    put_accesses(&mut code)?;
    put_atomic(&mut code)?;
    put_jumps(&mut code)?;
    put_calls(alloc, &mut code)?;
    Ok(List::new(code))
}

fn main_fn(alloc: Global) -> Result<MidFn, NoMemory>
    ensures { IfOk result (λ f. f ≡ rows.main) }
{
    let code = main_code(alloc)?;
    Ok(MidFn {
        values: 3,
        params: List::new(Vec::new(alloc)),
        frame: 1,
        code,
    })
}

fn callee_code(alloc: Global) -> Result<List<Mid>, NoMemory>
    ensures { IfOk result (λ code. code ≡ mid.Ret (0 ∷ []) ∷ []) }
{
    let mut code = Vec::new(alloc);
    put(&mut code, Mid::Ret(one(alloc, 0)?))?;
    Ok(List::new(code))
}

fn callee(alloc: Global) -> Result<MidFn, NoMemory>
    ensures { IfOk result (λ f. f ≡ rows.callee) }
{
    let code = callee_code(alloc)?;
    let params = Vec::from_array(alloc, [0, 1])?;
    Ok(MidFn {
        values: 2,
        params: List::new(params),
        frame: 0,
        code,
    })
}

fn checks(alloc: Global) -> Result<List<Check>, NoMemory>
    ensures { IfOk result (λ checks. checks ≡ record { size = 2; runs = [] } ∷ []) }
{
    let mut checks = Vec::new(alloc);
    checks.push(Check {
        size: 2,
        runs: List::new(Vec::new(alloc)),
    })?;
    Ok(List::new(checks))
}

fn functions(alloc: Global) -> Result<List<MidFn>, NoMemory>
    ensures { IfOk result (λ fns. fns ≡ rows.main ∷ rows.callee ∷ []) }
{
    let mut fns = Vec::new(alloc);
    fns.push(main_fn(alloc)?)?;
    fns.push(callee(alloc)?)?;
    Ok(List::new(fns))
}

fn program(alloc: Global) -> Result<MidCode, NoMemory>
    ensures { IfOk result (λ c. c ≡ rows.program) }
{
    let fns = functions(alloc)?;
    let checks = checks(alloc)?;
    Ok(MidCode { fns, checks })
}

fn selected(alloc: Global) -> Result<Vec<CodeFn>, NoMemory> {
    let c = program(alloc)?;
    select(alloc, &c)
}

// MOV @SP+, PC
const RET: Item = Item::Is(Instr::Two(Op2::Mov, false, Operand::Increment(1), Operand::Reg(0)));

// PUSH #0
const PUSH: Item = Item::Is(Instr::One(Op1::Push, false, Operand::Constant(0)));

#[test]
fn selects_each_instruction(rt: HostRuntime) {
    let code = selected(rt.alloc()).expect(&rt, "code");
    assert_eq!(rt; code.len(), 2);
    let main = code[0].items.as_slice();
    assert_eq!(rt; (code[0].frame, main.len()), (8, 66));
    assert_eq!(rt; code[0].calls.as_slice(), [1, 37, 50].as_slice());
    assert!(rt; main.starts_with(&[PUSH, PUSH, PUSH, PUSH]));
    assert!(rt; main.ends_with(&[RET]));
    let callee = code[1].items.as_slice();
    assert_eq!(rt; (code[1].frame, callee.len()), (4, 2));
    assert!(rt; callee.ends_with(&[RET]));
}
