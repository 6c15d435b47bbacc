//! An expression lowered to middle code, at the end of a function.

ghost use Rattle.std.specs.Prelude.{◌≡◌, ◌++◌, ◌+◌, ◌*◌, ◌<◌, ◌^◌, max, All, IfOk, OnErr, OnOk, length, map, if◌then◌else◌};
ghost use Rattle.expr_emitter.specs.Results as results;
ghost use Rattle.expr_emitter.specs.Results.{above, regs_at};
ghost use Rattle.lower_expr.specs.Code.{expr_code, labels};
ghost use Rattle.nesc_core.specs.Plain.{Ty};
ghost use Rattle.nesc_core.specs.Typing.{Has, IsSome, IsType};
ghost use Rattle.nesc_core.specs.View.{expr_of, program_of, structs_of, type_of};
ghost use Rattle.nesc_core.specs.Weights as weights;
ghost use Rattle.nesc_core.specs.WellFormed.{IsWellFormed};

use crate::expressions::emit_expr;
use crate::levels::expr_levels;
use crate::numbers::is_wide;
use crate::scope::Scope;
use crate::types::{is_void, result_type};
use lower_expr::{Regs, Spot};
use mid_code::{Mid, MidFn};
use nesc_core::{CoreExpr, CoreType, Program};
use nm_base::{List, NoMemory};
use std::alloc::Global;
use std::mem;

/// The code of an expression behind that of `f`. `locals` are those of the body in which `e` stands, `spots` tells for each of
/// them the values or the frame place of `f` that hold it, and `checks` are the types that the program's bodies dereference, in
/// the order of their first dereference. The value comes to the values behind those of `f`, which then has two more for each
/// level of `e`, and six; its labels are those from the first on that `f` does not name. The answer is the values that hold the
/// result. After NoMemory `f` is as it was.
pub fn lower_expr(
    alloc: Global,
    p: &Program,
    checks: &[CoreType],
    locals: &[CoreType],
    spots: &[Spot],
    e: &CoreExpr,
    f: &mut MidFn,
) -> Result<Regs, NoMemory>
    requires program { IsWellFormed (program_of p.now) }
    requires checks { length checks.now < 2 ^ 31 }
    requires locals { All (IsType (structs_of p.now.structs)) (map type_of locals.now) }
    requires typed { IsSome (Has (program_of p.now) (map type_of locals.now) (expr_of e.now)) }
    requires labels { results.first_label f.old.code + labels (expr_of e.now) < 2 ^ 32 }
    requires values { f.old.values + (2 * weights.expr_levels (expr_of e.now) + 6) < 2 ^ 32 }
    ensures code { OnOk result (f.new.code ≡ f.old.code ++ expr_code (program_of p.now) (map type_of locals.now) (map type_of checks.now) spots.now (expr_of e.now) f.old.values (results.first_label f.old.code)) }
    ensures values { OnOk result (f.new.values ≡ f.old.values + (2 * weights.expr_levels (expr_of e.now) + 6)) }
    ensures others { (f.new.params ≡ f.old.params) × (f.new.frame ≡ f.old.frame) }
    ensures regs { (ty : Ty) → Has (program_of p.now) (map type_of locals.now) (expr_of e.now) ty → IfOk result (λ regs. regs ≡ regs_at ty f.old.values) }
    ensures same { OnErr result (f.new ≡ f.old) }
{
    let scope = Scope {
        program: p,
        checks,
        locals,
        spots,
    };
    let r = f.values;
    let mut next = first_label(f.code.as_slice());
    let mut added = Vec::new(alloc);
    let of = emit_expr(alloc, &scope, e, r, &mut next, &mut added)?;
    append(alloc, &mut f.code, added)?;
    f.values = r + (2 * expr_levels(e) + 6);
    Ok(regs_from(is_empty(p, e), is_wide(of), r))
}

/// The first label above those that code names.
pub fn first_label(code: &[Mid]) -> u32
    requires { results.first_label code.now < 2 ^ 32 }
    ensures { result ≡ results.first_label code.now }
{
    let mut first = 0;
    for instr in code {
        first = first.max(label_above(instr));
    }
    first
}

fn label_above(instr: &Mid) -> u32
    requires { above instr.now < 2 ^ 32 }
    ensures { result ≡ above instr.now }
{
    match instr {
        Mid::Label(l) | Mid::Jump(l) | Mid::Branch(_, _, _, l) => *l + 1,
        _ => 0,
    }
}

// More code behind a function's. After NoMemory it is as it was.
fn append(alloc: Global, code: &mut List<Mid>, mut added: Vec<Mid>) -> Result<(), NoMemory>
    ensures ok { OnOk result (code.new ≡ code.old ++ added.items) }
    ensures same { OnErr result (code.new ≡ code.old) }
{
    let mut whole = mem::replace(code, List::new(Vec::new(alloc))).into_vec();
    let appended = whole.append(&mut added);
    *code = List::new(whole);
    appended?;
    Ok(())
}

// Whether the expression has no value.
fn is_empty(p: &Program, e: &CoreExpr) -> bool
    ensures { result ≡ results.is_empty (program_of p.now) (expr_of e.now) }
{
    match e {
        CoreExpr::Call(f, _, _) => is_void(result_type(p, *f)),
        CoreExpr::Out(_, _) => true,
        CoreExpr::Cond(_, a, _) => is_empty(p, a),
        CoreExpr::Comma(_, b) => is_empty(p, b),
        CoreExpr::Const(_, _)
        | CoreExpr::Null
        | CoreExpr::Read(_, _)
        | CoreExpr::Addr(_)
        | CoreExpr::Un(_, _, _)
        | CoreExpr::Bin(_, _, _, _)
        | CoreExpr::Convert(_, _)
        | CoreExpr::Offset(_, _, _)
        | CoreExpr::Distance(_, _, _)
        | CoreExpr::And(_, _)
        | CoreExpr::Or(_, _)
        | CoreExpr::Assign(_, _, _)
        | CoreExpr::Update(_, _, _, _, _, _)
        | CoreExpr::Post(_)
        | CoreExpr::In(_) => false,
    }
}

fn regs_from(empty: bool, wide: bool, r: u32) -> Regs
    requires { r + 1 < 2 ^ 32 }
    ensures { result ≡ (if empty then results.no_regs else results.regs_from wide r) }
{
    if empty {
        Regs {
            low: None,
            high: None,
        }
    } else if wide {
        Regs {
            low: Some(r),
            high: Some(r + 1),
        }
    } else {
        Regs {
            low: Some(r),
            high: None,
        }
    }
}
