//! Numbers lowered and run in the open machine, and computed in the source, beside what C gives.

ghost use Rattle.std.specs.Prelude.{◌≡◌, ◌<◌, IfOk, [], length};
ghost use Rattle.nm_base.specs.declared.int_type.IntType.TheVariants as int_type;
ghost use Rattle.nesc_core.specs.Plain as plain;
ghost use Rattle.nesc_core.specs.View.{expr_of, program_of};
ghost use Rattle.mid_code.specs.Form.{IsMidCode};
ghost use Rattle.mid_code.specs.Machine.{fn_of};
ghost use Rattle.lowered_rows.specs.Numbers as rows;
ghost use Rattle.lowered_rows.specs.Numbers.{IsWritable};

use core_act::act;
use expr_emitter::lower_expr;
use mid_code::{Action, Mid, MidCode, MidFn, open_start, open_step};
use nesc_core::{BinOp, Body, CoreExpr, CoreStmt, CoreType, Program, Structs, UnOp};
use nm_base::{IntType, List, Name, NoMemory};
use std::alloc::Global;
use std::test::Fail;

const PORT: u16 = 0x0130;

fn number(n: u16) -> CoreExpr
    ensures { expr_of result ≡ rows.number n }
{
    CoreExpr::Const(IntType::I16, i64::from(n))
}

fn minus(alloc: Global, n: u16) -> Result<CoreExpr, NoMemory>
    ensures { IfOk result (λ e. expr_of e ≡ rows.minus n) }
{
    Ok(CoreExpr::Un(UnOp::Neg, IntType::I16, Box::new(alloc, number(n))?))
}

fn converted(alloc: Global, t: IntType, e: CoreExpr) -> Result<CoreExpr, NoMemory>
    ensures { IfOk result (λ made. expr_of made ≡ plain.convert t (expr_of e)) }
{
    Ok(CoreExpr::Convert(t, Box::new(alloc, e)?))
}

// A number of 8 bits, promoted.
fn byte(alloc: Global, n: u16) -> Result<CoreExpr, NoMemory>
    ensures { IfOk result (λ e. expr_of e ≡ rows.byte n) }
{
    converted(
        alloc,
        IntType::I16,
        converted(alloc, IntType::U8, number(n))?,
    )
}

fn binary(
    alloc: Global,
    op: BinOp,
    t: IntType,
    a: CoreExpr,
    b: CoreExpr,
) -> Result<CoreExpr, NoMemory>
    ensures { IfOk result (λ e. expr_of e ≡ plain.bin op t (expr_of a) (expr_of b)) }
{
    let first = Box::new(alloc, a)?;
    Ok(CoreExpr::Bin(op, t, first, Box::new(alloc, b)?))
}

// uint8_t a = 200, b = 100; a + b
fn sum(alloc: Global) -> Result<CoreExpr, NoMemory>
    ensures { IfOk result (λ e. expr_of e ≡ rows.sum) }
{
    let a = byte(alloc, 200)?;
    binary(alloc, BinOp::Add, IntType::I16, a, byte(alloc, 100)?)
}

fn long_sum(alloc: Global) -> Result<CoreExpr, NoMemory>
    ensures { IfOk result (λ e. expr_of e ≡ rows.long_sum) }
{
    let a = CoreExpr::Const(IntType::I32, 40000);
    let b = converted(alloc, IntType::I32, number(30000))?;
    binary(alloc, BinOp::Add, IntType::I32, a, b)
}

fn less(alloc: Global) -> Result<CoreExpr, NoMemory>
    ensures { IfOk result (λ e. expr_of e ≡ rows.less) }
{
    let a = converted(alloc, IntType::U16, minus(alloc, 1)?)?;
    binary(
        alloc,
        BinOp::Lt,
        IntType::U16,
        a,
        CoreExpr::Const(IntType::U16, 1),
    )
}

fn of_minus(alloc: Global, op: BinOp, n: u16, m: u16) -> Result<CoreExpr, NoMemory>
    ensures { IfOk result (λ e. expr_of e ≡ plain.bin op int_type.I16 (rows.minus n) (rows.number m)) }
{
    let a = minus(alloc, n)?;
    binary(alloc, op, IntType::I16, a, number(m))
}

fn shifted(alloc: Global, n: u16, by: u16) -> Result<CoreExpr, NoMemory>
    ensures { IfOk result (λ e. expr_of e ≡ rows.shifted n by) }
{
    binary(alloc, BinOp::Shl, IntType::I16, number(n), number(by))
}

// The expression of a row.
fn value_of_row(alloc: Global, row: u8) -> Result<CoreExpr, NoMemory>
    ensures { IfOk result (λ e. expr_of e ≡ rows.value_of_row row) }
{
    match row {
        0 => sum(alloc),
        1 => converted(alloc, IntType::U8, sum(alloc)?),
        2 => shifted(alloc, 1, 15),
        3 => shifted(alloc, 1, 16),
        4 => of_minus(alloc, BinOp::Shr, 1, 20),
        5 => less(alloc),
        6 => long_sum(alloc),
        7 => of_minus(alloc, BinOp::Div, 7, 2),
        _ => of_minus(alloc, BinOp::Rem, 7, 2),
    }
}

fn row(alloc: Global, row: u8) -> Result<CoreExpr, NoMemory>
    ensures { IfOk result (λ e. expr_of e ≡ rows.row row) }
{
    converted(alloc, IntType::U16, value_of_row(alloc, row)?)
}

// A program whose boot function writes the value of the expression to the port.
fn program(alloc: Global, e: CoreExpr) -> Result<Program, NoMemory>
    ensures { IfOk result (λ p. program_of p ≡ rows.writing (expr_of e)) }
{
    let written = CoreStmt::Eval(CoreExpr::Out(PORT, Box::new(alloc, e)?));
    let boot = Body {
        name: Name::new(alloc, &[])?,
        params: 0,
        locals: List::new(Vec::new(alloc)),
        result: CoreType::Void,
        code: CoreStmt::Atomic(Box::new(alloc, written)?),
        is_async: false,
        is_item: false,
    };
    let bodies = Vec::from_array(alloc, [boot])?;
    Ok(Program {
        structs: Structs {
            structs: List::new(Vec::new(alloc)),
        },
        objects: List::new(Vec::new(alloc)),
        bodies: List::new(bodies),
        tasks: List::new(Vec::new(alloc)),
        handlers: List::new(Vec::new(alloc)),
        boot: 0,
        warnings: List::new(Vec::new(alloc)),
    })
}

// The function that writes the value of the expression.
#[tactic(auto, using(crate::proofs::Numbers::writing_is_well_formed))]
fn lowered(alloc: Global, p: &Program, e: &CoreExpr) -> Result<MidFn, NoMemory>
    requires writable { IsWritable (expr_of e.now) }
    requires program { program_of p.now ≡ rows.writing (expr_of e.now) }
    ensures { IfOk result (λ f. f ≡ rows.lowered (expr_of e.now)) }
{
    let mut f = MidFn {
        values: 0,
        params: List::new(Vec::new(alloc)),
        frame: 0,
        code: List::new(Vec::new(alloc)),
    };
    lower_expr(alloc, p, &[], &[], &[], e, &mut f)?;
    let mut code = f.code.into_vec();
    code.push(Mid::Out(PORT, 0))?;
    code.push(Mid::Ret(List::new(Vec::new(alloc))))?;
    f.code = List::new(code);
    Ok(f)
}

// What the open machine writes first to the port, if it does within a thousand steps.
fn first_write(alloc: Global, c: &MidCode) -> Result<Option<u16>, NoMemory>
    requires form { IsMidCode c.now }
    requires root { 0 < length c.now.fns }
    requires params { (fn_of c.now 0).params ≡ [] }
{
    let mut state = open_start(alloc, c, 0)?;
    for _ in 0..1000 {
        if let Some(Action::Out(PORT, value)) = open_step(alloc, c, &mut state, 0)? {
            return Ok(Some(value));
        }
    }
    Ok(None)
}

// What the row's program writes first.
fn written(alloc: Global, number: u8) -> Result<Option<u16>, NoMemory> {
    let e = row(alloc, number)?;
    let p = program(alloc, row(alloc, number)?)?;
    let f = lowered(alloc, &p, &e)?;
    let c = MidCode {
        fns: List::new(Vec::from_array(alloc, [f])?),
        checks: List::new(Vec::new(alloc)),
    };
    first_write(alloc, &c)
}

// What the row's program does in the source.
fn actions(alloc: Global, number: u8) -> Result<Vec<Action>, NoMemory> {
    let p = program(alloc, row(alloc, number)?)?;
    act(alloc, &p, 0, &[], 0)
}

#[test]
fn numbers(rt: HostRuntime) -> Result<(), Fail> {
    let wanted = [300, 44, 32768, 0, 65535, 0, 4464, 65533, 65535];
    for (k, value) in wanted.iter().enumerate() {
        let found = written(rt.alloc(), k as u8).ok().flatten();
        assert_eq!(rt; found, Some(*value));
        let wanted = [Action::Begin, Action::Out(PORT, *value), Action::End];
        match actions(rt.alloc(), k as u8) {
            Ok(done) => assert_eq!(rt; done.as_slice(), wanted.as_slice()),
            Err(_) => assert!(rt; false),
        }
    }
    Ok(())
}
