//! The calls of a case, in order, and what combines their results.

ghost use Rattle.std.specs.Prelude.{◌≡◌, ◌++◌, IfOk, map};
ghost use Rattle.elab_dispatch.specs.Calls.{called, calls, combined, gives_each, kept};
ghost use Rattle.nesc_core.specs.Plain as core;
ghost use Rattle.nesc_core.specs.View.{expr_of, stmt_of};

use crate::arguments::{call, local, target_call};
use crate::calling::Calling;
use elab_facts::{Reached, Target};
use nesc_core::{CoreExpr, CoreStmt, Place};
use nm_base::NoMemory;
use std::alloc::Global;

// The result so far, combined with the next one.
fn combined_with(alloc: Global, i: Calling, next: CoreExpr) -> Result<CoreExpr, NoMemory>
    ensures { IfOk result (λ e. expr_of e ≡ combined i (expr_of next)) }
{
    match i.combine {
        None => Ok(next),
        Some(function) => {
            let arguments = vec![in alloc; local(i, i.params), next]?;
            Ok(call(i, function, arguments))
        }
    }
}

// The result so far goes to its local, if a function combines it with the next one.
fn kept_value(alloc: Global, i: Calling, value: CoreExpr) -> Result<CoreStmt, NoMemory>
    ensures { IfOk result (λ s. stmt_of s ≡ kept i (expr_of value)) }
{
    match i.combine {
        None => Ok(CoreStmt::Eval(value)),
        Some(_) => {
            let value = Box::new(alloc, value)?;
            Ok(CoreStmt::Eval(CoreExpr::Assign(Place::Local(i.params), value, i.at)))
        }
    }
}

fn push_results(
    alloc: Global,
    i: Calling,
    targets: &[Target],
    code: &mut Vec<CoreStmt>,
) -> Result<(), NoMemory>
    ensures { IfOk result (λ _. map stmt_of code.new.items ≡ map stmt_of code.old.items ++ gives_each i (map (called i) targets.now)) }
{
    let Some((first, others)) = targets.split_first() else {
        return Ok(());
    };
    let mut value = target_call(alloc, i, *first)?;
    for target in others {
        code.push(kept_value(alloc, i, value)?)?;
        value = combined_with(alloc, i, target_call(alloc, i, *target)?)?;
    }
    code.push(CoreStmt::Return(Some(value)))?;
    Ok(())
}

fn push_plain(
    alloc: Global,
    i: Calling,
    targets: &[Target],
    code: &mut Vec<CoreStmt>,
) -> Result<(), NoMemory>
    ensures { IfOk result (λ _. map stmt_of code.new.items ≡ map stmt_of code.old.items ++ map core.eval (map (called i) targets.now)) }
{
    for target in targets {
        code.push(CoreStmt::Eval(target_call(alloc, i, *target)?))?;
    }
    Ok(())
}

/// The calls of a case in order, with the result that they give, behind the code that there is.
pub(crate) fn push_calls(
    alloc: Global,
    i: Calling,
    case: &Reached,
    code: &mut Vec<CoreStmt>,
) -> Result<(), NoMemory>
    ensures { IfOk result (λ _. map stmt_of code.new.items ≡ map stmt_of code.old.items ++ calls i case.now) }
{
    if i.is_void {
        push_plain(alloc, i, case.targets.as_slice(), code)
    } else {
        push_results(alloc, i, case.targets.as_slice(), code)
    }
}
