//! The names that declarations and statements call and post.

ghost use Rattle.std.specs.Prelude.{◌≡◌, ◌++◌, map, OnOk, option_map};
ghost use Rattle.body_meaning.specs.View.{decl_of, init_of, start_of, stmt_of, variable_of};
ghost use Rattle.elab_uses.specs.Lists.{decls_of, inits_of, maybe_stmt_of, stmts_of};
ghost use Rattle.program_meaning.specs.Uses as spec;

use crate::expressions::{in_expr, in_value};
use nesc_tree::{Decl, ForStart, Init, Stmt, Variable};
use nm_base::{Boxed, List, NoMemory};
use program_meaning::Use;

#[cycle(inits)]
fn in_init(found: &mut Vec<Use>, init: &Init) -> Result<(), NoMemory>
    ensures { OnOk result (found.new.items ≡ found.old.items ++ spec.in_init (init_of init.now)) }
{
    match init {
        Init::One(e) => in_expr(found, e),
        Init::Many(inits) => in_inits(found, inits),
    }
}

#[cycle(inits)]
#[tactic(auto, using(crate::proofs::Lists::lists))]
fn in_inits(found: &mut Vec<Use>, inits: &List<Init>) -> Result<(), NoMemory>
    ensures { OnOk result (found.new.items ≡ found.old.items ++ spec.in_inits (inits_of inits.now)) }
{
    for init in inits.as_slice() {
        in_init(found, init)?;
    }
    Ok(())
}

fn in_maybe_init(found: &mut Vec<Use>, init: &Option<Init>) -> Result<(), NoMemory>
    ensures { OnOk result (found.new.items ≡ found.old.items ++ spec.in_maybe_init (option_map init_of init.now)) }
{
    match init {
        Some(init) => in_init(found, init),
        None => Ok(()),
    }
}

#[tactic(auto, using(crate::proofs::Lists::lists))]
fn in_variables(found: &mut Vec<Use>, variables: &List<Variable>) -> Result<(), NoMemory>
    ensures { OnOk result (found.new.items ≡ found.old.items ++ spec.in_variables (map variable_of variables.now)) }
{
    for variable in variables.as_slice() {
        in_maybe_init(found, &variable.init)?;
    }
    Ok(())
}

fn in_start(found: &mut Vec<Use>, start: &ForStart) -> Result<(), NoMemory>
    ensures { OnOk result (found.new.items ≡ found.old.items ++ spec.in_start (start_of start.now)) }
{
    match start {
        ForStart::Nothing => Ok(()),
        ForStart::Eval(e) => in_expr(found, e),
        ForStart::Vars(group) => in_variables(found, &group.vars),
    }
}

/// Adds the names in a declaration to those before it, in the order of the text.
#[cycle(statements)]
pub fn in_decl(found: &mut Vec<Use>, decl: &Decl) -> Result<(), NoMemory>
    ensures { OnOk result (found.new.items ≡ found.old.items ++ spec.in_decl (decl_of decl.now)) }
{
    match decl {
        Decl::Typedef { .. } => Ok(()),
        Decl::TypeOnly(_, _) => Ok(()),
        Decl::Vars(group) => in_variables(found, &group.vars),
        Decl::Func { body, .. } => in_body(found, body),
    }
}

#[cycle(statements)]
fn in_body(found: &mut Vec<Use>, body: &Option<Stmt>) -> Result<(), NoMemory>
    ensures { OnOk result (found.new.items ≡ found.old.items ++ spec.in_maybe_stmt (maybe_stmt_of body.now)) }
{
    match body {
        Some(body) => in_stmt(found, body),
        None => Ok(()),
    }
}

#[cycle(statements)]
fn in_else(found: &mut Vec<Use>, branch: &Option<Boxed<Stmt>>) -> Result<(), NoMemory>
    ensures { OnOk result (found.new.items ≡ found.old.items ++ spec.in_maybe_stmt (maybe_stmt_of branch.now)) }
{
    match branch {
        Some(branch) => in_stmt(found, branch.get()),
        None => Ok(()),
    }
}

#[cycle(statements)]
#[tactic(auto, using(crate::proofs::Lists::lists))]
fn in_stmts(found: &mut Vec<Use>, stmts: &List<Stmt>) -> Result<(), NoMemory>
    ensures { OnOk result (found.new.items ≡ found.old.items ++ spec.in_stmts (stmts_of stmts.now)) }
{
    for stmt in stmts.as_slice() {
        in_stmt(found, stmt)?;
    }
    Ok(())
}

#[cycle(statements)]
fn in_stmt(found: &mut Vec<Use>, stmt: &Stmt) -> Result<(), NoMemory>
    ensures { OnOk result (found.new.items ≡ found.old.items ++ spec.in_stmt (stmt_of stmt.now)) }
{
    match stmt {
        Stmt::Block(stmts, _) => in_stmts(found, stmts),
        Stmt::Empty(_) | Stmt::Break(_) | Stmt::Continue(_) => Ok(()),
        Stmt::Eval(e, _) => in_expr(found, e),
        Stmt::Atomic(body, _) | Stmt::Default(body, _) => in_stmt(found, body.get()),
        Stmt::If(test, body, branch, _) => {
            in_expr(found, test)?;
            in_stmt(found, body.get())?;
            in_else(found, branch)
        }
        Stmt::While(e, body, _) | Stmt::Switch(e, body, _) | Stmt::Case(e, body, _) => {
            in_expr(found, e)?;
            in_stmt(found, body.get())
        }
        Stmt::DoWhile(body, test, _) => {
            in_stmt(found, body.get())?;
            in_expr(found, test)
        }
        Stmt::For {
            start,
            test,
            step,
            body,
            ..
        } => {
            in_start(found, start)?;
            in_value(found, test)?;
            in_value(found, step)?;
            in_stmt(found, body.get())
        }
        Stmt::Return(value, _) => in_value(found, value),
        Stmt::Local(decl, _) => in_decl(found, decl.get()),
    }
}

/// Adds the names in declarations, in the order of the text.
#[tactic(auto, using(crate::proofs::Lists::lists))]
pub fn in_decls(found: &mut Vec<Use>, decls: &[Decl]) -> Result<(), NoMemory>
    ensures { OnOk result (found.new.items ≡ found.old.items ++ spec.in_decls (decls_of decls.now)) }
{
    for decl in decls {
        in_decl(found, decl)?;
    }
    Ok(())
}
