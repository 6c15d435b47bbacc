//! The calls of a dispatch function, in order, and what combines their results.

ghost use Rattle.std.specs.Prelude.{◌≡◌, ◌<◌, ◌+◌, ◌++◌, ◌∷◌, [], length, map, IfOk};
ghost use Rattle.nesc_core.specs.Plain as plain;
ghost use Rattle.nesc_core.specs.View.{expr_of, exprs_of, stmt_of};
ghost use Rattle.combine_fanout.specs.Dispatch.{called, combined, gives_behind, gives_each, kept, locals_below, target};

use crate::item::Item;
use nesc_core::{CoreExpr, CoreStmt, Place};
use nm_base::{List, NoMemory};
use std::alloc::Global;

fn local(i: Item, number: u32) -> CoreExpr
    ensures { expr_of result ≡ plain.read (plain.local number) i.at }
{
    CoreExpr::Read(Place::Local(number), i.at)
}

fn parameters(alloc: Global, i: Item) -> Result<Vec<CoreExpr>, NoMemory>
    ensures { IfOk result (λ v. map expr_of v.items ≡ locals_below i.at i.params) }
{
    let mut arguments = Vec::new(alloc);
    for number in 0..i.params {
        arguments.push(local(i, number))?;
    }
    Ok(arguments)
}

fn call(i: Item, body: u32, arguments: Vec<CoreExpr>) -> CoreExpr
    ensures { expr_of result ≡ plain.call body (exprs_of arguments.items) i.at }
{
    CoreExpr::Call(body, List::new(arguments), i.at)
}

/// The call of a body with all parameters.
fn target_call(alloc: Global, i: Item, body: u32) -> Result<CoreExpr, NoMemory>
    ensures { IfOk result (λ e. expr_of e ≡ target i body) }
{
    Ok(call(i, body, parameters(alloc, i)?))
}

/// The result so far, combined with the next one.
fn combined_with(alloc: Global, i: Item, next: CoreExpr) -> Result<CoreExpr, NoMemory>
    ensures { IfOk result (λ e. expr_of e ≡ combined i (expr_of next)) }
{
    match i.combine {
        None => Ok(next),
        Some(function) => {
            let arguments = vec![in alloc; local(i, i.params), next]?;
            Ok(call(i, function, arguments))
        }
    }
}

/// The result so far goes to its local, if a function combines it with the next one.
fn kept_value(alloc: Global, i: Item, value: CoreExpr) -> Result<CoreStmt, NoMemory>
    ensures { IfOk result (λ s. stmt_of s ≡ kept i (expr_of value)) }
{
    match i.combine {
        None => Ok(CoreStmt::Eval(value)),
        Some(_) => {
            let value = Box::new(alloc, value)?;
            Ok(CoreStmt::Eval(CoreExpr::Assign(Place::Local(i.params), value, i.at)))
        }
    }
}

fn push_results(
    alloc: Global,
    i: Item,
    bodies: &[u32],
    code: &mut Vec<CoreStmt>,
) -> Result<(), NoMemory>
    ensures grown { IfOk result (λ _. length code.new.items ≡ length code.old.items + length bodies.now) }
    ensures code { IfOk result (λ _. map stmt_of code.new.items ≡ map stmt_of code.old.items ++ gives_each i (map (target i) bodies.now)) }
{
    let Some((first, others)) = bodies.split_first() else {
        return Ok(());
    };
    let mut value = target_call(alloc, i, *first)?;
    for body in others {
        code.push(kept_value(alloc, i, value)?)?;
        value = combined_with(alloc, i, target_call(alloc, i, *body)?)?;
    }
    code.push(CoreStmt::Return(Some(value)))?;
    Ok(())
}

fn push_calls(
    alloc: Global,
    i: Item,
    bodies: &[u32],
    code: &mut Vec<CoreStmt>,
) -> Result<(), NoMemory>
    ensures grown { IfOk result (λ _. length code.new.items ≡ length code.old.items + length bodies.now) }
    ensures code { IfOk result (λ _. map stmt_of code.new.items ≡ map stmt_of code.old.items ++ map plain.eval (map (target i) bodies.now)) }
{
    for body in bodies {
        code.push(CoreStmt::Eval(target_call(alloc, i, *body)?))?;
    }
    Ok(())
}

/// The calls of the bodies in order, with the result that they give.
pub(crate) fn push_called(
    alloc: Global,
    i: Item,
    bodies: &[u32],
    code: &mut Vec<CoreStmt>,
) -> Result<(), NoMemory>
    ensures grown { IfOk result (λ _. length code.new.items ≡ length code.old.items + length bodies.now) }
    ensures code { IfOk result (λ _. map stmt_of code.new.items ≡ map stmt_of code.old.items ++ called i bodies.now) }
{
    if i.is_void {
        push_calls(alloc, i, bodies, code)
    } else {
        push_results(alloc, i, bodies, code)
    }
}
