//! The calls and signals in expressions that reach nothing and have no default, in the order of the text.

ghost use Rattle.nesc_tree.specs.View.{expr_of, exprs_of};
ghost use Rattle.body_meaning.specs.View.{maybe_of};
ghost use Rattle.item_targets.specs.Search.{Adds};
ghost use Rattle.item_targets.specs.Walk.{expr_at, exprs_at, maybe_at};

use crate::calls::add_call;
use crate::elements::Reaches;
use crate::search::Search;
use crate::walk::Walk;
use nesc_tree::Expr;
use nm_base::{Boxed, List, NoMemory};

/// Adds those in an expression.
#[cycle(expressions)]
#[tactic(auto, unfolding(crate::specs::Search::Adds))]
pub(crate) fn in_expr<R: Reaches>(
    walk: &Walk<'_, R>,
    search: &mut Search,
    e: &Expr,
) -> Result<(), NoMemory>
    ensures { Adds result (expr_at R.reach walk.now (expr_of e.now)) search.old search.new }
{
    match e {
        Expr::Name(_, _) => Ok(()),
        Expr::Number(_, _) => Ok(()),
        Expr::Char(_, _) => Ok(()),
        Expr::Null(_) => Ok(()),
        Expr::Unique(_, _) => Ok(()),
        Expr::UniqueCount(_, _) => Ok(()),
        Expr::SizeOfType(_, _) => Ok(()),
        Expr::Post(_, _) => Ok(()),
        Expr::Unary(_, a, _) => in_expr(walk, search, a.get()),
        Expr::Postfix(_, a, _) => in_expr(walk, search, a.get()),
        Expr::Binary(_, a, b, _) => {
            in_expr(walk, search, a.get())?;
            in_expr(walk, search, b.get())
        }
        Expr::Assign(_, a, b, _) => {
            in_expr(walk, search, a.get())?;
            in_expr(walk, search, b.get())
        }
        Expr::Cond(a, b, c, _) => {
            in_expr(walk, search, a.get())?;
            in_expr(walk, search, b.get())?;
            in_expr(walk, search, c.get())
        }
        Expr::Comma(a, b, _) => {
            in_expr(walk, search, a.get())?;
            in_expr(walk, search, b.get())
        }
        Expr::Cast(_, a, _) => in_expr(walk, search, a.get()),
        Expr::SizeOfExpr(a, _) => in_expr(walk, search, a.get()),
        Expr::Index(a, i, _) => {
            in_expr(walk, search, a.get())?;
            in_expr(walk, search, i.get())
        }
        Expr::Member(a, _, _) => in_expr(walk, search, a.get()),
        Expr::Arrow(a, _, _) => in_expr(walk, search, a.get()),
        Expr::CallFn(f, args, _) => {
            in_expr(walk, search, f.get())?;
            in_list(walk, search, args)
        }
        Expr::CallItem {
            signal,
            element,
            item,
            param,
            args,
            pos,
        } => {
            add_call(walk, search, *signal, element, item, param, *pos)?;
            in_bracket(walk, search, param)?;
            in_list(walk, search, args)
        }
        Expr::PortRead(p, _) => in_expr(walk, search, p.get()),
        Expr::PortWrite(p, a, _) => {
            in_expr(walk, search, p.get())?;
            in_expr(walk, search, a.get())
        }
    }
}

#[cycle(expressions)]
#[tactic(auto, unfolding(crate::specs::Search::Adds))]
fn in_list<R: Reaches>(
    walk: &Walk<'_, R>,
    search: &mut Search,
    list: &List<Expr>,
) -> Result<(), NoMemory>
    ensures { Adds result (exprs_at R.reach walk.now (exprs_of list.now)) search.old search.new }
{
    for e in list.as_slice() {
        in_expr(walk, search, e)?;
    }
    Ok(())
}

#[cycle(expressions)]
#[tactic(auto, unfolding(crate::specs::Search::Adds, crate::specs::Walk::expr_at, crate::specs::Walk::maybe_at))]
fn in_bracket<R: Reaches>(
    walk: &Walk<'_, R>,
    search: &mut Search,
    param: &Option<Boxed<Expr>>,
) -> Result<(), NoMemory>
    ensures { Adds result (maybe_at R.reach walk.now (maybe_of param.now)) search.old search.new }
{
    match param {
        None => Ok(()),
        Some(e) => in_expr(walk, search, e.get()),
    }
}

/// Adds those in an expression, if there is one.
#[tactic(auto, unfolding(crate::specs::Search::Adds, crate::specs::Walk::expr_at, crate::specs::Walk::maybe_at))]
pub(crate) fn in_value<R: Reaches>(
    walk: &Walk<'_, R>,
    search: &mut Search,
    value: &Option<Expr>,
) -> Result<(), NoMemory>
    ensures { Adds result (maybe_at R.reach walk.now (maybe_of value.now)) search.old search.new }
{
    match value {
        None => Ok(()),
        Some(e) => in_expr(walk, search, e),
    }
}
