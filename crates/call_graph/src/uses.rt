//! The accesses and calls of a body, in the order of its nodes.

ghost use Rattle.std.specs.Prelude.{◌≡◌, ◌+◌, ◌<◌, ◌^◌, ◌++◌, [], ◌∷◌, IfOk, false, map};
ghost use Rattle.nesc_core.specs.Nodes as nodes;
ghost use Rattle.nesc_core.specs.View.{expr_of, exprs_of, place_of, maybe_expr_of, stmt_of, stmts_of};
ghost use Rattle.call_graph.specs.Uses as spec;
ghost use Rattle.call_graph.specs.View.{use_of};

use nesc_core::{CoreExpr, CoreStmt, Place};
use nm_base::{List, NoMemory, Pos};
use std::alloc::Global;

/// A node of a body that accesses a place, as a read or an assignment, or that calls a body, with its number in the body and
/// whether it lies in an atomic statement of it.
#[derive(Clone, Copy)]
pub enum Use<'a> {
    Access {
        node: u32,
        is_inside: bool,
        place: &'a Place,
        pos: Pos,
    },
    Call {
        node: u32,
        is_inside: bool,
        callee: u32,
        pos: Pos,
    },
}

// Each function puts the uses of its part last, and gives the number of the node behind the part.

#[cycle(expr_uses)]
#[tactic(auto, using(crate::proofs::ViewLists::lists))]
fn expr_uses<'a>(
    out: &mut Vec<Use<'a>>,
    node: u32,
    is_inside: bool,
    e: &'a CoreExpr,
) -> Result<u32, NoMemory>
    requires { node + nodes.expr_nodes_of (expr_of e.now) < 2 ^ 32 }
    ensures next { IfOk result (λ next. next ≡ node + nodes.expr_nodes_of (expr_of e.now)) }
    ensures uses { IfOk result (λ _. map use_of out.new.items ≡ map use_of out.old.items ++ spec.expr_uses node is_inside (expr_of e.now)) }
{
    let inner = node + 1;
    match e {
        CoreExpr::Const(_, _) | CoreExpr::Null | CoreExpr::Post(_) | CoreExpr::In(_) => Ok(inner),
        CoreExpr::Read(place, pos) => {
            push_access(out, node, is_inside, place, *pos)?;
            place_uses(out, inner, is_inside, place)
        }
        CoreExpr::Addr(place) => place_uses(out, inner, is_inside, place),
        CoreExpr::Un(_, _, a) | CoreExpr::Convert(_, a) | CoreExpr::Out(_, a) => expr_uses(
            out, inner, is_inside, a,
        ),
        CoreExpr::Bin(_, _, a, b) => {
            let behind = expr_uses(out, inner, is_inside, a)?;
            expr_uses(out, behind, is_inside, b)
        }
        CoreExpr::Offset(a, b, _) | CoreExpr::Distance(a, b, _) => {
            let behind = expr_uses(out, inner, is_inside, a)?;
            expr_uses(out, behind, is_inside, b)
        }
        CoreExpr::And(a, b) | CoreExpr::Or(a, b) | CoreExpr::Comma(a, b) => {
            let behind = expr_uses(out, inner, is_inside, a)?;
            expr_uses(out, behind, is_inside, b)
        }
        CoreExpr::Cond(a, b, c) => {
            let behind = expr_uses(out, inner, is_inside, a)?;
            let last = expr_uses(out, behind, is_inside, b)?;
            expr_uses(out, last, is_inside, c)
        }
        CoreExpr::Assign(place, a, pos) => {
            push_access(out, node, is_inside, place, *pos)?;
            let behind = place_uses(out, inner, is_inside, place)?;
            expr_uses(out, behind, is_inside, a)
        }
        CoreExpr::Update(place, _, _, a, _, pos) => {
            push_access(out, node, is_inside, place, *pos)?;
            let behind = place_uses(out, inner, is_inside, place)?;
            expr_uses(out, behind, is_inside, a)
        }
        CoreExpr::Call(callee, args, pos) => {
            push_call(out, node, is_inside, *callee, *pos)?;
            args_uses(out, inner, is_inside, args)
        }
    }
}

#[cycle(expr_uses)]
#[tactic(auto, using(crate::proofs::ViewLists::lists))]
fn place_uses<'a>(
    out: &mut Vec<Use<'a>>,
    node: u32,
    is_inside: bool,
    place: &'a Place,
) -> Result<u32, NoMemory>
    requires { node + nodes.place_nodes_of (place_of place.now) < 2 ^ 32 }
    ensures next { IfOk result (λ next. next ≡ node + nodes.place_nodes_of (place_of place.now)) }
    ensures uses { IfOk result (λ _. map use_of out.new.items ≡ map use_of out.old.items ++ spec.place_uses node is_inside (place_of place.now)) }
{
    let inner = node + 1;
    match place {
        Place::Object(_) | Place::Local(_) => Ok(inner),
        Place::Deref(e, _) => expr_uses(out, inner, is_inside, e),
        Place::Index(base, e) => {
            let behind = place_uses(out, inner, is_inside, base)?;
            expr_uses(out, behind, is_inside, e)
        }
        Place::Field(base, _) => place_uses(out, inner, is_inside, base),
    }
}

#[cycle(expr_uses)]
#[tactic(auto, using(crate::proofs::ViewLists::lists))]
fn args_uses<'a>(
    out: &mut Vec<Use<'a>>,
    node: u32,
    is_inside: bool,
    args: &'a List<CoreExpr>,
) -> Result<u32, NoMemory>
    requires { node + nodes.exprs_nodes_of (exprs_of args.now) < 2 ^ 32 }
    ensures next { IfOk result (λ next. next ≡ node + nodes.exprs_nodes_of (exprs_of args.now)) }
    ensures uses { IfOk result (λ _. map use_of out.new.items ≡ map use_of out.old.items ++ spec.exprs_uses node is_inside (exprs_of args.now)) }
{
    let mut behind = node;
    for a in args.as_slice() {
        behind = expr_uses(out, behind, is_inside, a)?;
    }
    Ok(behind)
}

fn maybe_uses<'a>(
    out: &mut Vec<Use<'a>>,
    node: u32,
    is_inside: bool,
    e: &'a Option<CoreExpr>,
) -> Result<u32, NoMemory>
    requires { node + nodes.maybe_nodes_of (maybe_expr_of e.now) < 2 ^ 32 }
    ensures next { IfOk result (λ next. next ≡ node + nodes.maybe_nodes_of (maybe_expr_of e.now)) }
    ensures uses { IfOk result (λ _. map use_of out.new.items ≡ map use_of out.old.items ++ spec.maybe_uses node is_inside (maybe_expr_of e.now)) }
{
    match e {
        None => Ok(node),
        Some(e) => expr_uses(out, node, is_inside, e),
    }
}

#[cycle(stmt_uses)]
#[tactic(auto, using(crate::proofs::ViewLists::lists))]
fn stmt_uses<'a>(
    out: &mut Vec<Use<'a>>,
    node: u32,
    is_inside: bool,
    s: &'a CoreStmt,
) -> Result<u32, NoMemory>
    requires { node + nodes.stmt_nodes_of (stmt_of s.now) < 2 ^ 32 }
    ensures next { IfOk result (λ next. next ≡ node + nodes.stmt_nodes_of (stmt_of s.now)) }
    ensures uses { IfOk result (λ _. map use_of out.new.items ≡ map use_of out.old.items ++ spec.stmt_uses node is_inside (stmt_of s.now)) }
{
    let inner = node + 1;
    match s {
        CoreStmt::Eval(e) => expr_uses(out, inner, is_inside, e),
        CoreStmt::Block(list) => stmts_uses(out, inner, is_inside, list),
        CoreStmt::If(e, a, b) => {
            let behind = expr_uses(out, inner, is_inside, e)?;
            let last = stmt_uses(out, behind, is_inside, a)?;
            stmt_uses(out, last, is_inside, b)
        }
        CoreStmt::Loop {
            test,
            step,
            body,
            ..
        } => {
            let behind = expr_uses(out, inner, is_inside, test)?;
            let last = maybe_uses(out, behind, is_inside, step)?;
            stmt_uses(out, last, is_inside, body)
        }
        CoreStmt::Switch(e, _, list) => {
            let behind = expr_uses(out, inner, is_inside, e)?;
            stmts_uses(out, behind, is_inside, list)
        }
        CoreStmt::Break | CoreStmt::Continue | CoreStmt::Clear(_) => Ok(inner),
        CoreStmt::Return(e) => maybe_uses(out, inner, is_inside, e),
        CoreStmt::Atomic(body) => stmt_uses(out, inner, true, body),
        CoreStmt::Here { args, body, .. } => {
            let behind = args_uses(out, inner, is_inside, args)?;
            stmt_uses(out, behind, is_inside, body)
        }
    }
}

#[cycle(stmt_uses)]
#[tactic(auto, using(crate::proofs::ViewLists::lists))]
fn stmts_uses<'a>(
    out: &mut Vec<Use<'a>>,
    node: u32,
    is_inside: bool,
    list: &'a List<CoreStmt>,
) -> Result<u32, NoMemory>
    requires { node + nodes.stmts_nodes_of (stmts_of list.now) < 2 ^ 32 }
    ensures next { IfOk result (λ next. next ≡ node + nodes.stmts_nodes_of (stmts_of list.now)) }
    ensures uses { IfOk result (λ _. map use_of out.new.items ≡ map use_of out.old.items ++ spec.stmts_uses node is_inside (stmts_of list.now)) }
{
    let mut behind = node;
    for s in list.as_slice() {
        behind = stmt_uses(out, behind, is_inside, s)?;
    }
    Ok(behind)
}

fn push_access<'a>(
    out: &mut Vec<Use<'a>>,
    node: u32,
    is_inside: bool,
    place: &'a Place,
    pos: Pos,
) -> Result<(), NoMemory>
    ensures { IfOk result (λ _. map use_of out.new.items ≡ map use_of out.old.items ++ spec.Access node is_inside (place_of place.now) pos ∷ []) }
{
    out.push(Use::Access {
        node,
        is_inside,
        place,
        pos,
    })?;
    Ok(())
}

fn push_call<'a>(
    out: &mut Vec<Use<'a>>,
    node: u32,
    is_inside: bool,
    callee: u32,
    pos: Pos,
) -> Result<(), NoMemory>
    ensures { IfOk result (λ _. map use_of out.new.items ≡ map use_of out.old.items ++ spec.Calls node is_inside callee pos ∷ []) }
{
    out.push(Use::Call {
        node,
        is_inside,
        callee,
        pos,
    })?;
    Ok(())
}

/// The accesses and calls of a body with this code, in the order of its nodes.
pub fn uses_in(alloc: Global, code: &CoreStmt) -> Result<Vec<Use<'_>>, NoMemory>
    requires { nodes.stmt_nodes_of (stmt_of code.now) < 2 ^ 32 }
    ensures { IfOk result (λ v. map use_of v.items ≡ spec.stmt_uses 0 false (stmt_of code.now)) }
{
    let mut out = Vec::new(alloc);
    stmt_uses(&mut out, 0, false, code)?;
    Ok(out)
}
