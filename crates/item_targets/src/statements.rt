//! The calls and signals in statements that reach nothing and have no default, in the order of the text.

ghost use Rattle.std.specs.Prelude.{map};
ghost use Rattle.std.specs.Option.{option_map};
ghost use Rattle.body_meaning.specs.View.{maybe_stmt, stmt_of, stmts};
ghost use Rattle.item_targets.specs.Search.{Adds};
ghost use Rattle.item_targets.specs.Walk.{maybe_stmt_at, outermost_at, stmt_at, stmts_at};

use crate::elements::Reaches;
use crate::expressions::{in_expr, in_value};
use crate::search::Search;
use crate::variables::{in_local, in_start};
use crate::walk::Walk;
use elab_pieces::block_in;
use nesc_tree::Stmt;
use nm_base::{Boxed, List, NoMemory};

#[cycle(statements)]
#[tactic(auto, unfolding(crate::specs::Search::Adds))]
fn in_stmt<R: Reaches>(walk: &Walk<'_, R>, search: &mut Search, x: &Stmt) -> Result<(), NoMemory>
    ensures { Adds result (stmt_at R.reach walk.now (stmt_of x.now)) search.old search.new }
{
    match x {
        Stmt::Block(xs, _) => {
            let outer = search.scopes.enter();
            in_stmts(walk, search, xs)?;
            search.scopes.leave(outer);
            Ok(())
        }
        Stmt::Empty(_) => Ok(()),
        Stmt::Break(_) => Ok(()),
        Stmt::Continue(_) => Ok(()),
        Stmt::Eval(e, _) => in_expr(walk, search, e),
        Stmt::Atomic(body, _) => in_stmt(walk, search, body.get()),
        Stmt::Default(body, _) => in_stmt(walk, search, body.get()),
        Stmt::If(test, body, branch, _) => {
            in_expr(walk, search, test)?;
            in_stmt(walk, search, body.get())?;
            in_else(walk, search, branch)
        }
        Stmt::While(e, body, _) => {
            in_expr(walk, search, e)?;
            in_stmt(walk, search, body.get())
        }
        Stmt::Switch(e, body, _) => {
            in_expr(walk, search, e)?;
            in_stmt(walk, search, body.get())
        }
        Stmt::Case(e, body, _) => {
            in_expr(walk, search, e)?;
            in_stmt(walk, search, body.get())
        }
        Stmt::DoWhile(body, test, _) => {
            in_stmt(walk, search, body.get())?;
            in_expr(walk, search, test)
        }
        Stmt::For {
            start,
            test,
            step,
            body,
            pos,
        } => {
            let outer = search.scopes.enter();
            in_start(walk, search, *pos, start)?;
            in_value(walk, search, test)?;
            in_value(walk, search, step)?;
            in_stmt(walk, search, body.get())?;
            search.scopes.leave(outer);
            Ok(())
        }
        Stmt::Return(value, _) => in_value(walk, search, value),
        Stmt::Local(d, at) => in_local(walk, search, *at, d.get()),
    }
}

#[cycle(statements)]
#[tactic(auto, unfolding(crate::specs::Search::Adds, crate::specs::Walk::maybe_stmt_at, crate::specs::Walk::stmt_at))]
fn in_else<R: Reaches>(
    walk: &Walk<'_, R>,
    search: &mut Search,
    branch: &Option<Boxed<Stmt>>,
) -> Result<(), NoMemory>
    ensures { Adds result (maybe_stmt_at R.reach walk.now (maybe_stmt (option_map stmt_of branch.now))) search.old search.new }
{
    match branch {
        None => Ok(()),
        Some(branch) => in_stmt(walk, search, branch.get()),
    }
}

#[cycle(statements)]
#[tactic(auto, unfolding(crate::specs::Search::Adds))]
fn in_stmts<R: Reaches>(
    walk: &Walk<'_, R>,
    search: &mut Search,
    xs: &List<Stmt>,
) -> Result<(), NoMemory>
    ensures { Adds result (stmts_at R.reach walk.now (stmts (map stmt_of xs.now))) search.old search.new }
{
    for x in xs.as_slice() {
        in_stmt(walk, search, x)?;
    }
    Ok(())
}

/// The body of a function, in the scope of its parameters.
#[tactic(auto, unfolding(crate::specs::Search::Adds))]
pub(crate) fn in_outermost<R: Reaches>(
    walk: &Walk<'_, R>,
    search: &mut Search,
    x: &Stmt,
) -> Result<(), NoMemory>
    ensures { Adds result (outermost_at R.reach walk.now (stmt_of x.now)) search.old search.new }
{
    match block_in(x) {
        Some(xs) => in_stmts(walk, search, xs),
        None => in_stmt(walk, search, x),
    }
}
