//! Where expressions begin.

ghost use Rattle.std.specs.Prelude.{◌≡◌};
ghost use Rattle.nesc_tree.specs.View.{expr_of};
ghost use Rattle.wire_uniques.specs.Places as spec;
ghost use Rattle.wire_uniques.specs.Trees.{maybe_of};

use nesc_tree::Expr;
use nm_base::Pos;

fn pos_of(e: &Expr) -> Pos
    ensures { result ≡ spec.pos_of (expr_of e.now) }
{
    match e {
        Expr::Name(_, at)
        | Expr::Number(_, at)
        | Expr::Char(_, at)
        | Expr::Null(at)
        | Expr::Unique(_, at)
        | Expr::UniqueCount(_, at)
        | Expr::Unary(_, _, at)
        | Expr::Postfix(_, _, at)
        | Expr::Binary(_, _, _, at)
        | Expr::Assign(_, _, _, at)
        | Expr::Cond(_, _, _, at)
        | Expr::Comma(_, _, at)
        | Expr::Cast(_, _, at)
        | Expr::SizeOfExpr(_, at)
        | Expr::SizeOfType(_, at)
        | Expr::Index(_, _, at)
        | Expr::Member(_, _, at)
        | Expr::Arrow(_, _, at)
        | Expr::CallFn(_, _, at)
        | Expr::CallItem { pos: at, .. }
        | Expr::PortRead(_, at)
        | Expr::PortWrite(_, _, at)
        | Expr::Post(_, at) => *at,
    }
}

fn is_before(a: Pos, b: Pos) -> bool
    ensures { result ≡ spec.is_before a b }
{
    a.line < b.line || (a.line == b.line && a.col < b.col)
}

/// Whether both expressions are there and the first begins before the second, in one file.
pub fn begins_before(a: &Option<Expr>, b: &Option<Expr>) -> bool
    ensures { result ≡ spec.begins_before (maybe_of a.now) (maybe_of b.now) }
{
    match a {
        None => false,
        Some(a) => match b {
            None => false,
            Some(b) => is_before(pos_of(a), pos_of(b)),
        },
    }
}
