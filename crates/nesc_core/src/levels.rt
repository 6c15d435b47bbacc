//! The levels of expressions.

ghost use Rattle.std.specs.Prelude.{◌≡◌, ◌≤◌, ◌+◌, max};
ghost use Rattle.nesc_core.specs.Levels.{counted};
ghost use Rattle.nesc_core.specs.Levels as spec;
ghost use Rattle.nesc_core.specs.declared.levels.TheConstants.{MOST_LEVELS as most};
ghost use Rattle.nesc_core.specs.View.{expr_of, exprs_of, place_of};
ghost use Rattle.nesc_core.specs.Weights as weights;

use crate::tree::{CoreExpr, Place};
use nm_base::List;

/// What levels are counted up to; a frame has room for far fewer.
pub const MOST_LEVELS: u32 = 1_000_000;

fn counted(levels: u32) -> u32
    ensures { result ≡ spec.counted levels }
{
    levels.min(MOST_LEVELS)
}

/// The levels of an expression, as its frame counts them, up to `MOST_LEVELS`.
#[cycle(levels)]
#[tactic(auto, using(crate::proofs::LevelLemmas::levels))]
pub fn expr_levels(e: &CoreExpr) -> u32
    ensures { result ≡ counted (weights.expr_levels (expr_of e.now)) }
{
    match e {
        CoreExpr::Const(_, _) | CoreExpr::Null | CoreExpr::Post(_) | CoreExpr::In(_) => 1,
        CoreExpr::Read(place, _) | CoreExpr::Addr(place) => counted(1 + place_levels(place)),
        CoreExpr::Un(_, _, a) | CoreExpr::Convert(_, a) | CoreExpr::Out(_, a) => counted(
            1 + expr_levels(a),
        ),
        CoreExpr::Bin(_, _, a, b) => of_two(expr_levels(a), expr_levels(b)),
        CoreExpr::Offset(a, b, _) | CoreExpr::Distance(a, b, _) => of_two(
            expr_levels(a),
            expr_levels(b),
        ),
        CoreExpr::And(a, b) | CoreExpr::Or(a, b) | CoreExpr::Comma(a, b) => of_two(
            expr_levels(a),
            expr_levels(b),
        ),
        CoreExpr::Cond(a, b, c) => of_three(expr_levels(a), expr_levels(b), expr_levels(c)),
        CoreExpr::Assign(place, a, _) => of_two(place_levels(place), expr_levels(a)),
        CoreExpr::Update(place, _, _, a, _, _) => of_two(place_levels(place), expr_levels(a)),
        CoreExpr::Call(_, args, _) => counted(1 + args_levels(args)),
    }
}

// Of a part, and of one behind it.
fn of_two(a: u32, b: u32) -> u32
    requires first { a ≤ most }
    requires second { b ≤ most }
    ensures { result ≡ counted (1 + max a (1 + b)) }
{
    counted(1 + a.max(1 + b))
}

// Of a part, and of two behind it.
fn of_three(a: u32, b: u32, c: u32) -> u32
    requires first { a ≤ most }
    requires second { b ≤ most }
    requires third { c ≤ most }
    ensures { result ≡ counted (1 + max a (max (1 + b) (2 + c))) }
{
    counted(1 + a.max((1 + b).max(2 + c)))
}

#[cycle(levels)]
#[tactic(auto, using(crate::proofs::LevelLemmas::levels))]
fn place_levels(place: &Place) -> u32
    ensures { result ≡ counted (weights.place_levels (place_of place.now)) }
{
    match place {
        Place::Object(_) | Place::Local(_) => 1,
        Place::Deref(e, _) => counted(1 + expr_levels(e)),
        Place::Index(base, e) => of_two(place_levels(base), expr_levels(e)),
        Place::Field(base, _) => counted(1 + place_levels(base)),
    }
}

// Each argument stands behind those before it.
#[cycle(levels)]
#[tactic(auto, using(crate::proofs::LevelLemmas::levels))]
fn args_levels(args: &List<CoreExpr>) -> u32
    ensures { result ≡ counted (weights.exprs_levels (exprs_of args.now) 0) }
{
    let mut most = 0;
    let mut before = 0;
    for arg in args.as_slice() {
        most = counted(before + expr_levels(arg)).max(most);
        before = counted(before + 1);
    }
    most
}
