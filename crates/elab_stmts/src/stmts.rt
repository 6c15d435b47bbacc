//! Statements as the wired program has them.

ghost use Rattle.std.specs.Prelude.{map};
ghost use Rattle.nesc_core.specs.View.{stmt_of as core_stmt_of, type_of};
ghost use Rattle.elab_meaning.specs.Answers.{Gives};
ghost use Rattle.elab_meaning.specs.View.{env_of, state_of};
ghost use Rattle.body_meaning.specs.Stmts as spec;
ghost use Rattle.body_meaning.specs.View.{stmt_of, stmts};

use crate::walk;
use elab_exprs::Told;
use elab_meaning::Work;
use nesc_core::{CoreStmt, CoreType};
use nesc_tree::Stmt;
use nm_base::{Fault, List};
use std::alloc::Global;

/// A statement in a function whose result has this type.
#[tactic(auto, unfolding(crate::specs::Walk::IsStmt, crate::specs::Walk::stmt_at))]
pub fn stmt(
    alloc: Global,
    told: &Told,
    work: &mut Work,
    x: &Stmt,
    due: &CoreType,
) -> Result<CoreStmt, Fault>
    ensures { Gives core_stmt_of result (state_of work.new) (spec.stmt (env_of told.now.env) told.now.values (type_of due.now) (stmt_of x.now) (state_of work.old)) }
{
    walk::stmt(alloc, told, work, x, due)
}

/// The statements and declarations of a block in a function whose result has this type, in their order and in the scope that is open.
#[tactic(auto, unfolding(crate::specs::Walk::AreStmts, crate::specs::Walk::items_at))]
pub fn items(
    alloc: Global,
    told: &Told,
    work: &mut Work,
    xs: &List<Stmt>,
    due: &CoreType,
) -> Result<Vec<CoreStmt>, Fault>
    ensures { Gives (λ v. map core_stmt_of v.items) result (state_of work.new) (spec.items (env_of told.now.env) told.now.values (type_of due.now) (stmts (map stmt_of xs.now)) (state_of work.old)) }
{
    walk::items(alloc, told, work, xs, due)
}
