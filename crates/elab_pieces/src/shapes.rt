//! What stands in a statement.

ghost use Rattle.std.specs.Prelude.{◌≡◌, map};
ghost use Rattle.std.specs.Option.{option_map};
ghost use Rattle.body_meaning.specs.Stmts as spec;
ghost use Rattle.body_meaning.specs.View.{decl_of, stmt_of, stmts};
ghost use Rattle.elab_pieces.specs.Flow.{block_in, label_in, label_of};

use nesc_tree::{Decl, Expr, Stmt};
use nm_base::{List, Pos};

/// A statement behind its label, or one that has none.
#[derive(Clone, Copy)]
pub enum Label<'a> {
    Case(&'a Expr, &'a Stmt),
    Default(&'a Stmt),
    Nothing,
}

/// The declaration that the statement is, with its place.
pub fn declaration_in(x: &Stmt) -> Option<(&Decl, Pos)>
    ensures { spec.declaration_in (stmt_of x.now) ≡ option_map (λ d. (decl_of d.0.now, d.1)) result }
{
    match x {
        Stmt::Local(d, at) => Some((d.get(), *at)),
        Stmt::Block(_, _)
        | Stmt::Empty(_)
        | Stmt::Eval(_, _)
        | Stmt::Atomic(_, _)
        | Stmt::If(_, _, _, _)
        | Stmt::While(_, _, _)
        | Stmt::DoWhile(_, _, _)
        | Stmt::For { .. }
        | Stmt::Switch(_, _, _)
        | Stmt::Case(_, _, _)
        | Stmt::Default(_, _)
        | Stmt::Break(_)
        | Stmt::Continue(_)
        | Stmt::Return(_, _) => None,
    }
}

/// The statements of a block.
pub fn block_in(x: &Stmt) -> Option<&List<Stmt>>
    ensures { block_in (stmt_of x.now) ≡ option_map (λ xs. stmts (map stmt_of xs.now)) result }
{
    match x {
        Stmt::Block(xs, _) => Some(xs),
        Stmt::Empty(_)
        | Stmt::Eval(_, _)
        | Stmt::Atomic(_, _)
        | Stmt::If(_, _, _, _)
        | Stmt::While(_, _, _)
        | Stmt::DoWhile(_, _, _)
        | Stmt::For { .. }
        | Stmt::Switch(_, _, _)
        | Stmt::Case(_, _, _)
        | Stmt::Default(_, _)
        | Stmt::Break(_)
        | Stmt::Continue(_)
        | Stmt::Return(_, _)
        | Stmt::Local(_, _) => None,
    }
}

/// The label that the statement stands behind.
pub fn label_in<'a>(x: &'a Stmt) -> Label<'a>
    ensures { label_in (stmt_of x.now) ≡ label_of result }
{
    match x {
        Stmt::Case(e, y, _) => Label::Case(e, y.get()),
        Stmt::Default(y, _) => Label::Default(y.get()),
        Stmt::Block(_, _)
        | Stmt::Empty(_)
        | Stmt::Eval(_, _)
        | Stmt::Atomic(_, _)
        | Stmt::If(_, _, _, _)
        | Stmt::While(_, _, _)
        | Stmt::DoWhile(_, _, _)
        | Stmt::For { .. }
        | Stmt::Switch(_, _, _)
        | Stmt::Break(_)
        | Stmt::Continue(_)
        | Stmt::Return(_, _)
        | Stmt::Local(_, _) => Label::Nothing,
    }
}
