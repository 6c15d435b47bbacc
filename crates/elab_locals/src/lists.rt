//! Lists of what is done, one behind the other.

ghost use Rattle.std.specs.Prelude.{◌≡◌, ◌∷◌, ◌++◌, IfOk, OnOk, map};
ghost use Rattle.nesc_core.specs.declared.tree.CoreStmt as core_stmt;
ghost use Rattle.nesc_core.specs.Plain as core;
ghost use Rattle.nesc_core.specs.View.{expr_of, stmt_of};

use nesc_core::{CoreExpr, CoreStmt};
use nm_base::NoMemory;
use std::alloc::Global;

/// More expressions, behind those that there are.
#[tactic(auto, using(crate::proofs::Turns::lists))]
pub(crate) fn add_steps(steps: &mut Vec<CoreExpr>, more: Vec<CoreExpr>) -> Result<(), NoMemory>
    ensures { OnOk result (map expr_of steps.new.items ≡ map expr_of steps.old.items ++ map expr_of more.items) }
{
    let mut more = more;
    steps.append(&mut more)?;
    Ok(())
}

/// More statements, behind those that there are.
#[tactic(auto, using(crate::proofs::Turns::lists))]
pub fn add_stmts(code: &mut Vec<CoreStmt>, more: Vec<CoreStmt>) -> Result<(), NoMemory>
    ensures { OnOk result (map stmt_of code.new.items ≡ map stmt_of code.old.items ++ map stmt_of more.items) }
{
    let mut more = more;
    code.append(&mut more)?;
    Ok(())
}

fn evals(alloc: Global, steps: Vec<CoreExpr>) -> Result<Vec<CoreStmt>, NoMemory>
    ensures { IfOk result (λ v. v.items ≡ map (λ e. core_stmt.Eval e) steps.items) }
{
    Ok(steps.into_iter().map(|e| CoreStmt::Eval(e)).collect(alloc)?)
}

/// Expressions as statements, each evaluated in its turn.
#[tactic(auto, using(crate::proofs::Evals::evals))]
pub fn evaluated(alloc: Global, steps: Vec<CoreExpr>) -> Result<Vec<CoreStmt>, NoMemory>
    ensures { IfOk result (λ v. map stmt_of v.items ≡ map core.eval (map expr_of steps.items)) }
{
    evals(alloc, steps)
}

/// A local that is set to 0, and what is done behind that.
pub(crate) fn cleared(
    alloc: Global,
    local: u32,
    steps: Vec<CoreExpr>,
) -> Result<Vec<CoreStmt>, NoMemory>
    ensures { IfOk result (λ v. map stmt_of v.items ≡ core.clear local ∷ map core.eval (map expr_of steps.items)) }
{
    let mut code = vec![in alloc; CoreStmt::Clear(local)]?;
    let done = evaluated(alloc, steps)?;
    add_stmts(&mut code, done)?;
    Ok(code)
}
