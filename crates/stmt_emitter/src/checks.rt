//! The checks of a program: the types that its bodies dereference, in the order of their first dereference.

ghost use Rattle.std.specs.Prelude.{◌≡◌, ◌++◌, ◌∷◌, [], IfOk, OnOk, map};
ghost use Rattle.std.specs.List.{list_any};
ghost use Rattle.lower_stmt.specs.Bodies.{in_order};
ghost use Rattle.lower_stmt.specs.Bodies as spec;
ghost use Rattle.nesc_core.specs.Derefs.{expr_derefs, exprs_derefs, maybe_derefs, place_derefs, stmt_derefs, stmts_derefs};
ghost use Rattle.nesc_core.specs.Parts as parts;
ghost use Rattle.nesc_core.specs.View.{expr_of, exprs_of, maybe_expr_of, place_of, program_of, stmt_of, stmts_of, type_of};

use nesc_core::{CoreExpr, CoreStmt, CoreType, Place, Program, is_same_type};
use nm_base::{List, NoMemory};
use std::alloc::Global;

#[cycle(copies)]
fn copied(alloc: Global, t: &CoreType) -> Result<CoreType, NoMemory>
    ensures { IfOk result (λ r. type_of r ≡ type_of t.now) }
{
    match t {
        CoreType::Void => Ok(CoreType::Void),
        CoreType::Int(int) => Ok(CoreType::Int(*int)),
        CoreType::Pointer(to) => Ok(CoreType::Pointer(copied_boxed(alloc, to)?)),
        CoreType::Array(of, count) => Ok(CoreType::Array(copied_boxed(alloc, of)?, *count)),
        CoreType::Struct(k) => Ok(CoreType::Struct(*k)),
    }
}

#[cycle(copies)]
fn copied_boxed(alloc: Global, t: &Box<CoreType>) -> Result<Box<CoreType>, NoMemory>
    ensures { IfOk result (λ r. type_of r.value ≡ type_of t.now.value) }
{
    Ok(Box::new(alloc, copied(alloc, t)?)?)
}

fn is_seen(seen: &[CoreType], t: &CoreType) -> bool
    ensures { result ≡ list_any (λ u. parts.same_type u (type_of t.now)) (map type_of seen.now) }
{
    let mut rest = seen;
    while let [first, others @ ..] = rest {
        if is_same_type(first, t) {
            return true;
        }
        rest = others;
    }
    false
}

// The type, unless it was seen.
fn add(alloc: Global, seen: &mut Vec<CoreType>, t: &CoreType) -> Result<(), NoMemory>
    ensures { OnOk result (map type_of seen.new.items ≡ in_order (map type_of seen.old.items) (type_of t.now ∷ [])) }
{
    if !is_seen(seen.as_slice(), t) {
        seen.push(copied(alloc, t)?)?;
    }
    Ok(())
}

#[cycle(derefs)]
#[tactic(auto, using(crate::proofs::Orders::in_order_append))]
fn add_expr(alloc: Global, seen: &mut Vec<CoreType>, e: &CoreExpr) -> Result<(), NoMemory>
    ensures { OnOk result (map type_of seen.new.items ≡ in_order (map type_of seen.old.items) (expr_derefs (expr_of e.now))) }
{
    match e {
        CoreExpr::Const(_, _) | CoreExpr::Null | CoreExpr::Post(_) | CoreExpr::In(_) => Ok(()),
        CoreExpr::Read(place, _) | CoreExpr::Addr(place) => add_place(alloc, seen, place),
        CoreExpr::Un(_, _, a) | CoreExpr::Convert(_, a) | CoreExpr::Out(_, a) => add_expr(
            alloc, seen, a,
        ),
        CoreExpr::Bin(_, _, a, b) => add_both(alloc, seen, a, b),
        CoreExpr::Offset(a, b, _) | CoreExpr::Distance(a, b, _) => add_both(alloc, seen, a, b),
        CoreExpr::And(a, b) | CoreExpr::Or(a, b) | CoreExpr::Comma(a, b) => add_both(
            alloc, seen, a, b,
        ),
        CoreExpr::Cond(test, a, b) => add_three(alloc, seen, test, a, b),
        CoreExpr::Assign(place, a, _) => add_access(alloc, seen, place, a),
        CoreExpr::Update(place, _, _, a, _, _) => add_access(alloc, seen, place, a),
        CoreExpr::Call(_, args, _) => add_args(alloc, seen, args),
    }
}

#[cycle(derefs)]
#[tactic(auto, using(crate::proofs::Orders::in_order_append))]
fn add_both(
    alloc: Global,
    seen: &mut Vec<CoreType>,
    a: &CoreExpr,
    b: &CoreExpr,
) -> Result<(), NoMemory>
    ensures { OnOk result (map type_of seen.new.items ≡ in_order (map type_of seen.old.items) (expr_derefs (expr_of a.now) ++ expr_derefs (expr_of b.now))) }
{
    add_expr(alloc, seen, a)?;
    add_expr(alloc, seen, b)
}

#[cycle(derefs)]
#[tactic(auto, using(crate::proofs::Orders::in_order_append))]
fn add_three(
    alloc: Global,
    seen: &mut Vec<CoreType>,
    test: &CoreExpr,
    a: &CoreExpr,
    b: &CoreExpr,
) -> Result<(), NoMemory>
    ensures { OnOk result (map type_of seen.new.items ≡ in_order (map type_of seen.old.items) ((expr_derefs (expr_of test.now) ++ expr_derefs (expr_of a.now)) ++ expr_derefs (expr_of b.now))) }
{
    add_expr(alloc, seen, test)?;
    add_expr(alloc, seen, a)?;
    add_expr(alloc, seen, b)
}

#[cycle(derefs)]
#[tactic(auto, using(crate::proofs::Orders::in_order_append))]
fn add_access(
    alloc: Global,
    seen: &mut Vec<CoreType>,
    place: &Place,
    e: &CoreExpr,
) -> Result<(), NoMemory>
    ensures { OnOk result (map type_of seen.new.items ≡ in_order (map type_of seen.old.items) (place_derefs (place_of place.now) ++ expr_derefs (expr_of e.now))) }
{
    add_place(alloc, seen, place)?;
    add_expr(alloc, seen, e)
}

#[cycle(derefs)]
#[tactic(auto, using(crate::proofs::Orders::in_order_append))]
fn add_place(alloc: Global, seen: &mut Vec<CoreType>, place: &Place) -> Result<(), NoMemory>
    ensures { OnOk result (map type_of seen.new.items ≡ in_order (map type_of seen.old.items) (place_derefs (place_of place.now))) }
{
    match place {
        Place::Object(_) | Place::Local(_) => Ok(()),
        Place::Deref(e, t) => {
            add(alloc, seen, t)?;
            add_expr(alloc, seen, e)
        }
        Place::Index(base, e) => add_access(alloc, seen, base, e),
        Place::Field(base, _) => add_place(alloc, seen, base),
    }
}

#[cycle(derefs)]
#[tactic(auto, using(crate::proofs::Orders::args_step))]
fn add_args(alloc: Global, seen: &mut Vec<CoreType>, args: &List<CoreExpr>) -> Result<(), NoMemory>
    ensures { OnOk result (map type_of seen.new.items ≡ in_order (map type_of seen.old.items) (exprs_derefs (exprs_of args.now))) }
{
    for arg in args.as_slice() {
        add_expr(alloc, seen, arg)?;
    }
    Ok(())
}

fn add_maybe(alloc: Global, seen: &mut Vec<CoreType>, e: &Option<CoreExpr>) -> Result<(), NoMemory>
    ensures { OnOk result (map type_of seen.new.items ≡ in_order (map type_of seen.old.items) (maybe_derefs (maybe_expr_of e.now))) }
{
    match e {
        None => Ok(()),
        Some(e) => add_expr(alloc, seen, e),
    }
}

#[cycle(stmt_derefs)]
#[tactic(auto, using(crate::proofs::Switches::derefs_switch))]
fn add_stmt(alloc: Global, seen: &mut Vec<CoreType>, s: &CoreStmt) -> Result<(), NoMemory>
    ensures { OnOk result (map type_of seen.new.items ≡ in_order (map type_of seen.old.items) (stmt_derefs (stmt_of s.now))) }
{
    match s {
        CoreStmt::Eval(e) => add_expr(alloc, seen, e),
        CoreStmt::Block(list) => add_stmts(alloc, seen, list),
        CoreStmt::If(test, a, b) => add_branch(alloc, seen, test, a, b),
        CoreStmt::Loop {
            test,
            step,
            body,
            ..
        } => add_loop(alloc, seen, test, step, body),
        CoreStmt::Switch(e, _, list) => add_switch(alloc, seen, e, list),
        CoreStmt::Return(e) => add_maybe(alloc, seen, e),
        CoreStmt::Atomic(body) => add_stmt(alloc, seen, body),
        CoreStmt::Here { args, body, .. } => add_here(alloc, seen, args, body),
        CoreStmt::Break | CoreStmt::Continue | CoreStmt::Clear(_) => Ok(()),
    }
}

#[cycle(stmt_derefs)]
#[tactic(auto, using(crate::proofs::Orders::in_order_append))]
fn add_branch(
    alloc: Global,
    seen: &mut Vec<CoreType>,
    test: &CoreExpr,
    a: &CoreStmt,
    b: &CoreStmt,
) -> Result<(), NoMemory>
    ensures { OnOk result (map type_of seen.new.items ≡ in_order (map type_of seen.old.items) ((expr_derefs (expr_of test.now) ++ stmt_derefs (stmt_of a.now)) ++ stmt_derefs (stmt_of b.now))) }
{
    add_expr(alloc, seen, test)?;
    add_stmt(alloc, seen, a)?;
    add_stmt(alloc, seen, b)
}

#[cycle(stmt_derefs)]
#[tactic(auto, using(crate::proofs::Orders::in_order_append))]
fn add_loop(
    alloc: Global,
    seen: &mut Vec<CoreType>,
    test: &CoreExpr,
    step: &Option<CoreExpr>,
    body: &CoreStmt,
) -> Result<(), NoMemory>
    ensures { OnOk result (map type_of seen.new.items ≡ in_order (map type_of seen.old.items) ((expr_derefs (expr_of test.now) ++ maybe_derefs (maybe_expr_of step.now)) ++ stmt_derefs (stmt_of body.now))) }
{
    add_expr(alloc, seen, test)?;
    add_maybe(alloc, seen, step)?;
    add_stmt(alloc, seen, body)
}

#[cycle(stmt_derefs)]
#[tactic(auto, using(crate::proofs::Orders::in_order_append))]
fn add_switch(
    alloc: Global,
    seen: &mut Vec<CoreType>,
    e: &CoreExpr,
    list: &List<CoreStmt>,
) -> Result<(), NoMemory>
    ensures { OnOk result (map type_of seen.new.items ≡ in_order (map type_of seen.old.items) (expr_derefs (expr_of e.now) ++ stmts_derefs (stmts_of list.now))) }
{
    add_expr(alloc, seen, e)?;
    add_stmts(alloc, seen, list)
}

#[cycle(stmt_derefs)]
#[tactic(auto, using(crate::proofs::Orders::in_order_append))]
fn add_here(
    alloc: Global,
    seen: &mut Vec<CoreType>,
    args: &List<CoreExpr>,
    body: &CoreStmt,
) -> Result<(), NoMemory>
    ensures { OnOk result (map type_of seen.new.items ≡ in_order (map type_of seen.old.items) (exprs_derefs (exprs_of args.now) ++ stmt_derefs (stmt_of body.now))) }
{
    add_args(alloc, seen, args)?;
    add_stmt(alloc, seen, body)
}

#[cycle(stmt_derefs)]
#[tactic(auto, using(crate::proofs::Orders::stmts_step))]
fn add_stmts(alloc: Global, seen: &mut Vec<CoreType>, list: &List<CoreStmt>) -> Result<(), NoMemory>
    ensures { OnOk result (map type_of seen.new.items ≡ in_order (map type_of seen.old.items) (stmts_derefs (stmts_of list.now))) }
{
    for s in list.as_slice() {
        add_stmt(alloc, seen, s)?;
    }
    Ok(())
}

/// The types that the program's bodies dereference, in the order of their first dereference.
#[tactic(auto, using(crate::proofs::Orders::bodies_step))]
pub(crate) fn checks_of(alloc: Global, p: &Program) -> Result<Vec<CoreType>, NoMemory>
    ensures { IfOk result (λ v. map type_of v.items ≡ spec.checks_of (program_of p.now)) }
{
    let mut seen = Vec::new(alloc);
    for body in p.bodies.as_slice() {
        add_stmt(alloc, &mut seen, &body.code)?;
    }
    Ok(seen)
}
