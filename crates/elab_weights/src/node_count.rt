//! The nodes of bodies.

ghost use Rattle.std.specs.Prelude.{◌≡◌, sum_by, map};
ghost use Rattle.elab_weights.specs.Bounded.{bounded};
ghost use Rattle.nesc_core.specs.Nodes.{body_nodes_of, expr_nodes_of, exprs_nodes_of, maybe_nodes_of, place_nodes_of, stmt_nodes_of, stmts_nodes_of};
ghost use Rattle.nesc_core.specs.View.{body_of, expr_of, exprs_of, maybe_expr_of, place_of, stmt_of, stmts_of};

use crate::bound::bounded;
use nesc_core::{Body, CoreExpr, CoreStmt, Place};
use nm_base::List;

/// How many expressions, statements and places these bodies have together, up to the bound.
#[tactic(auto, using(crate::proofs::Trees::nodes_more))]
pub fn nodes(bodies: &[Body]) -> u32
    ensures { result ≡ bounded (sum_by body_nodes_of (map body_of bodies.now)) }
{
    let mut sum = 0;
    for body in bodies {
        sum = bounded(sum + stmt_nodes(&body.code));
    }
    sum
}

#[cycle(expr_nodes)]
#[tactic(auto, using(crate::proofs::Trees::nodes))]
fn expr_nodes(e: &CoreExpr) -> u32
    ensures { result ≡ bounded (expr_nodes_of (expr_of e.now)) }
{
    match e {
        CoreExpr::Const(_, _) | CoreExpr::Null | CoreExpr::Post(_) | CoreExpr::In(_) => 1,
        CoreExpr::Read(place, _) | CoreExpr::Addr(place) => bounded(1 + place_nodes(place)),
        CoreExpr::Un(_, _, a) | CoreExpr::Convert(_, a) | CoreExpr::Out(_, a) => bounded(
            1 + expr_nodes(a),
        ),
        CoreExpr::Bin(_, _, a, b) => bounded(1 + expr_nodes(a) + expr_nodes(b)),
        CoreExpr::Offset(a, b, _) | CoreExpr::Distance(a, b, _) => bounded(
            1 + expr_nodes(a) + expr_nodes(b),
        ),
        CoreExpr::And(a, b) | CoreExpr::Or(a, b) | CoreExpr::Comma(a, b) => bounded(
            1 + expr_nodes(a) + expr_nodes(b),
        ),
        CoreExpr::Cond(a, b, c) => bounded(1 + expr_nodes(a) + expr_nodes(b) + expr_nodes(c)),
        CoreExpr::Assign(place, a, _) => bounded(1 + place_nodes(place) + expr_nodes(a)),
        CoreExpr::Update(place, _, _, a, _, _) => bounded(1 + place_nodes(place) + expr_nodes(a)),
        CoreExpr::Call(_, args, _) => bounded(1 + args_nodes(args)),
    }
}

#[cycle(expr_nodes)]
#[tactic(auto, using(crate::proofs::Trees::nodes))]
fn place_nodes(place: &Place) -> u32
    ensures { result ≡ bounded (place_nodes_of (place_of place.now)) }
{
    match place {
        Place::Object(_) | Place::Local(_) => 1,
        Place::Deref(e, _) => bounded(1 + expr_nodes(e)),
        Place::Index(base, e) => bounded(1 + place_nodes(base) + expr_nodes(e)),
        Place::Field(base, _) => bounded(1 + place_nodes(base)),
    }
}

#[cycle(expr_nodes)]
#[tactic(auto, using(crate::proofs::Trees::nodes))]
fn args_nodes(args: &List<CoreExpr>) -> u32
    ensures { result ≡ bounded (exprs_nodes_of (exprs_of args.now)) }
{
    let mut sum = 0;
    for a in args.as_slice() {
        sum = bounded(sum + expr_nodes(a));
    }
    sum
}

fn maybe_nodes(e: &Option<CoreExpr>) -> u32
    ensures { result ≡ bounded (maybe_nodes_of (maybe_expr_of e.now)) }
{
    match e {
        None => 0,
        Some(e) => expr_nodes(e),
    }
}

/// How many expressions, statements and places the statement has, up to the bound.
#[cycle(stmt_nodes)]
#[tactic(auto, using(crate::proofs::Trees::nodes))]
pub fn stmt_nodes(s: &CoreStmt) -> u32
    ensures { result ≡ bounded (stmt_nodes_of (stmt_of s.now)) }
{
    match s {
        CoreStmt::Eval(e) => bounded(1 + expr_nodes(e)),
        CoreStmt::Block(list) => bounded(1 + stmts_nodes(list)),
        CoreStmt::If(e, a, b) => bounded(1 + expr_nodes(e) + stmt_nodes(a) + stmt_nodes(b)),
        CoreStmt::Loop {
            test,
            step,
            body,
            ..
        } => bounded(1 + expr_nodes(test) + maybe_nodes(step) + stmt_nodes(body)),
        CoreStmt::Switch(e, _, list) => bounded(1 + expr_nodes(e) + stmts_nodes(list)),
        CoreStmt::Break | CoreStmt::Continue | CoreStmt::Clear(_) => 1,
        CoreStmt::Return(e) => bounded(1 + maybe_nodes(e)),
        CoreStmt::Atomic(body) => bounded(1 + stmt_nodes(body)),
        CoreStmt::Here { args, body, .. } => bounded(1 + args_nodes(args) + stmt_nodes(body)),
    }
}

#[cycle(stmt_nodes)]
#[tactic(auto, using(crate::proofs::Trees::nodes))]
fn stmts_nodes(list: &List<CoreStmt>) -> u32
    ensures { result ≡ bounded (stmts_nodes_of (stmts_of list.now)) }
{
    let mut sum = 0;
    for s in list.as_slice() {
        sum = bounded(sum + stmt_nodes(s));
    }
    sum
}
