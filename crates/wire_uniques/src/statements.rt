//! The uses of `unique` in declarations and statements.

ghost use Rattle.std.specs.Prelude.{◌≡◌, ◌++◌, OnOk, option_map};
ghost use Rattle.wire_uniques.specs.Statements as spec;

use crate::declarations::{in_head, in_vars};
use crate::expressions::{in_expr, in_type, in_value};
use crate::used::Use;
use nesc_tree::{Decl, ForStart, Stmt};
use nm_base::{Boxed, List, NoMemory};

/// Adds the uses in a declaration.
#[cycle(statements)]
pub fn in_decl(found: &mut Vec<Use>, decl: &Decl) -> Result<(), NoMemory>
    ensures { OnOk result (found.new.items ≡ found.old.items ++ spec.in_decl decl.now) }
{
    match decl {
        Decl::Typedef { ty, .. } => in_type(found, ty),
        Decl::TypeOnly(ty, _) => in_type(found, ty),
        Decl::Vars(group) => in_vars(found, group),
        Decl::Func { head, body } => {
            in_head(found, head)?;
            in_body(found, body)
        }
    }
}

#[cycle(statements)]
fn in_body(found: &mut Vec<Use>, body: &Option<Stmt>) -> Result<(), NoMemory>
    ensures { OnOk result (found.new.items ≡ found.old.items ++ spec.or_none (option_map spec.in_stmt body.now)) }
{
    match body {
        Some(body) => in_stmt(found, body),
        None => Ok(()),
    }
}

#[cycle(statements)]
fn in_else(found: &mut Vec<Use>, branch: &Option<Boxed<Stmt>>) -> Result<(), NoMemory>
    ensures { OnOk result (found.new.items ≡ found.old.items ++ spec.or_none (option_map spec.in_stmt branch.now)) }
{
    match branch {
        Some(branch) => in_stmt(found, branch.get()),
        None => Ok(()),
    }
}

fn in_start(found: &mut Vec<Use>, start: &ForStart) -> Result<(), NoMemory>
    ensures { OnOk result (found.new.items ≡ found.old.items ++ spec.in_start start.now) }
{
    match start {
        ForStart::Nothing => Ok(()),
        ForStart::Eval(e) => in_expr(found, e),
        ForStart::Vars(group) => in_vars(found, group),
    }
}

#[cycle(statements)]
#[tactic(auto, using(crate::proofs::Parts::parts))]
fn in_stmts(found: &mut Vec<Use>, stmts: &List<Stmt>) -> Result<(), NoMemory>
    ensures { OnOk result (found.new.items ≡ found.old.items ++ spec.in_stmts stmts.now) }
{
    for stmt in stmts.as_slice() {
        in_stmt(found, stmt)?;
    }
    Ok(())
}

#[cycle(statements)]
fn in_stmt(found: &mut Vec<Use>, stmt: &Stmt) -> Result<(), NoMemory>
    ensures { OnOk result (found.new.items ≡ found.old.items ++ spec.in_stmt stmt.now) }
{
    match stmt {
        Stmt::Block(stmts, _) => in_stmts(found, stmts),
        Stmt::Empty(_) | Stmt::Break(_) | Stmt::Continue(_) => Ok(()),
        Stmt::Eval(e, _) => in_expr(found, e),
        Stmt::Atomic(body, _) | Stmt::Default(body, _) => in_stmt(found, body.get()),
        Stmt::If(test, body, branch, _) => {
            in_expr(found, test)?;
            in_stmt(found, body.get())?;
            in_else(found, branch)
        }
        Stmt::While(e, body, _) | Stmt::Switch(e, body, _) | Stmt::Case(e, body, _) => {
            in_expr(found, e)?;
            in_stmt(found, body.get())
        }
        Stmt::DoWhile(body, test, _) => {
            in_stmt(found, body.get())?;
            in_expr(found, test)
        }
        Stmt::For {
            start,
            test,
            step,
            body,
            ..
        } => {
            in_start(found, start)?;
            in_value(found, test)?;
            in_value(found, step)?;
            in_stmt(found, body.get())
        }
        Stmt::Return(value, _) => in_value(found, value),
        Stmt::Local(decl, _) => in_decl(found, decl.get()),
    }
}
