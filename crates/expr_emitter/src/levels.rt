//! The levels of an expression: how many pairs of values its code takes.

ghost use Rattle.std.specs.Prelude.{◌≡◌, ◌+◌, ◌<◌, ◌^◌};
ghost use Rattle.nesc_core.specs.View.{expr_of, exprs_of, place_of};
ghost use Rattle.nesc_core.specs.Weights as weights;
ghost use Rattle.nesc_core.specs.Weights.{exprs_levels, place_levels};

use nesc_core::{CoreExpr, Place};
use nm_base::List;

/// The levels of an expression.
#[cycle(levels)]
pub fn expr_levels(e: &CoreExpr) -> u32
    requires { weights.expr_levels (expr_of e.now) < 2 ^ 32 }
    ensures { result ≡ weights.expr_levels (expr_of e.now) }
{
    match e {
        CoreExpr::Const(_, _) | CoreExpr::Null | CoreExpr::Post(_) | CoreExpr::In(_) => 1,
        CoreExpr::Read(place, _) | CoreExpr::Addr(place) => 1 + levels_of_place(place),
        CoreExpr::Un(_, _, a) | CoreExpr::Convert(_, a) | CoreExpr::Out(_, a) => 1 + expr_levels(a),
        CoreExpr::Bin(_, _, a, b) => 1 + expr_levels(a).max(1 + expr_levels(b)),
        CoreExpr::Offset(a, b, _) | CoreExpr::Distance(a, b, _) => 1
            + expr_levels(a).max(1 + expr_levels(b)),
        CoreExpr::And(a, b) | CoreExpr::Or(a, b) | CoreExpr::Comma(a, b) => 1
            + expr_levels(a).max(1 + expr_levels(b)),
        CoreExpr::Cond(a, b, c) => 1
            + expr_levels(a).max((1 + expr_levels(b)).max(2 + expr_levels(c))),
        CoreExpr::Assign(place, a, _) => 1 + levels_of_place(place).max(1 + expr_levels(a)),
        CoreExpr::Update(place, _, _, a, _, _) => 1
            + levels_of_place(place).max(1 + expr_levels(a)),
        CoreExpr::Call(_, args, _) => 1 + args_levels(args),
    }
}

#[cycle(levels)]
fn levels_of_place(place: &Place) -> u32
    requires { place_levels (place_of place.now) < 2 ^ 32 }
    ensures { result ≡ place_levels (place_of place.now) }
{
    match place {
        Place::Object(_) | Place::Local(_) => 1,
        Place::Deref(e, _) => 1 + expr_levels(e),
        Place::Index(base, e) => 1 + levels_of_place(base).max(1 + expr_levels(e)),
        Place::Field(base, _) => 1 + levels_of_place(base),
    }
}

#[cycle(levels)]
fn args_levels(args: &List<CoreExpr>) -> u32
    requires { exprs_levels (exprs_of args.now) 0 < 2 ^ 32 }
    ensures { result ≡ exprs_levels (exprs_of args.now) 0 }
{
    let mut most = 0;
    let mut before = 0;
    for arg in args.as_slice() {
        most = (before + expr_levels(arg)).max(most);
        before += 1;
    }
    most
}
