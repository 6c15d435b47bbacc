//! Initial values of variables, which the boot function sets before anything else.

ghost use Rattle.std.specs.Prelude.{◌≡◌, IfOk, None, map};
ghost use Rattle.std.specs.Option.{option_map};
ghost use Rattle.elab_program.specs.Initial as parts;
ghost use Rattle.nesc_core.specs.Plain as core;
ghost use Rattle.nesc_core.specs.View.{stmt_of, stmts_of};
ghost use Rattle.program_meaning.specs.Program as spec;

use nesc_core::CoreStmt;
use nm_base::{List, NoMemory};
use std::alloc::Global;
use std::mem::replace;

// These statements, and those of the list behind them.
fn joined(
    alloc: Global,
    initial: &mut Vec<CoreStmt>,
    list: List<CoreStmt>,
) -> Result<List<CoreStmt>, NoMemory>
    ensures { IfOk result (λ r. stmts_of r ≡ spec.before (map stmt_of initial.old.items) (stmts_of list)) }
{
    let mut list = list.into_vec();
    initial.append(&mut list)?;
    Ok(List::new(replace(initial, Vec::new(alloc))))
}

// The statements of a block, which are taken out of it; None where the statement is no block.
fn taken(alloc: Global, s: &mut CoreStmt) -> Option<List<CoreStmt>>
    ensures taken { option_map (λ r. stmts_of r) result ≡ parts.statements_of (stmt_of s.old) }
    ensures left { result ≡ None → stmt_of s.new ≡ stmt_of s.old }
{
    match s {
        CoreStmt::Block(list) => Some(replace(list, List::new(Vec::new(alloc)))),
        CoreStmt::Eval(_)
        | CoreStmt::If(_, _, _)
        | CoreStmt::Loop { .. }
        | CoreStmt::Switch(_, _, _)
        | CoreStmt::Break
        | CoreStmt::Continue
        | CoreStmt::Return(_)
        | CoreStmt::Atomic(_)
        | CoreStmt::Clear(_)
        | CoreStmt::Here { .. } => None,
    }
}

// A block of these statements takes the place of a statement.
fn put_block(s: &mut CoreStmt, list: List<CoreStmt>)
    ensures { stmt_of s.new ≡ core.block (stmts_of list) }
{
    drop(replace(s, CoreStmt::Block(list)));
}

// These statements first in a block.
#[tactic(auto, using(crate::proofs::Blocks::blocks))]
fn in_block(alloc: Global, initial: &mut Vec<CoreStmt>, s: &mut CoreStmt) -> Result<(), NoMemory>
    ensures { IfOk result (λ _. stmt_of s.new ≡ parts.in_block (map stmt_of initial.old.items) (stmt_of s.old)) }
{
    let Some(list) = taken(alloc, s) else {
        return Ok(());
    };
    put_block(s, joined(alloc, initial, list)?);
    Ok(())
}

fn in_boxed(
    alloc: Global,
    initial: &mut Vec<CoreStmt>,
    s: &mut Box<CoreStmt>,
) -> Result<(), NoMemory>
    ensures { IfOk result (λ _. stmt_of s.new.value ≡ parts.in_block (map stmt_of initial.old.items) (stmt_of s.old.value)) }
{
    in_block(alloc, initial, s)
}

// These statements first in the block of an atomic statement.
#[tactic(auto, using(crate::proofs::Blocks::atomics))]
fn in_atomic(alloc: Global, initial: &mut Vec<CoreStmt>, s: &mut CoreStmt) -> Result<(), NoMemory>
    ensures { IfOk result (λ _. stmt_of s.new ≡ spec.in_atomic (map stmt_of initial.old.items) (stmt_of s.old)) }
{
    match s {
        CoreStmt::Atomic(body) => in_boxed(alloc, initial, body),
        CoreStmt::Eval(_)
        | CoreStmt::Block(_)
        | CoreStmt::If(_, _, _)
        | CoreStmt::Loop { .. }
        | CoreStmt::Switch(_, _, _)
        | CoreStmt::Break
        | CoreStmt::Continue
        | CoreStmt::Return(_)
        | CoreStmt::Clear(_)
        | CoreStmt::Here { .. } => Ok(()),
    }
}

fn in_first(
    alloc: Global,
    initial: &mut Vec<CoreStmt>,
    items: &mut Vec<CoreStmt>,
) -> Result<(), NoMemory>
    ensures { IfOk result (λ _. map stmt_of items.new.items ≡ parts.in_first (map stmt_of initial.old.items) (map stmt_of items.old.items)) }
{
    match items.first_mut() {
        None => Ok(()),
        Some(first) => in_atomic(alloc, initial, first),
    }
}

// The same of a list that is not changed any more.
fn with_first(
    alloc: Global,
    initial: &mut Vec<CoreStmt>,
    list: List<CoreStmt>,
) -> Result<List<CoreStmt>, NoMemory>
    ensures { IfOk result (λ r. map stmt_of r ≡ parts.in_first (map stmt_of initial.old.items) (map stmt_of list)) }
{
    let mut items = list.into_vec();
    in_first(alloc, initial, &mut items)?;
    Ok(List::new(items))
}

/// Puts the initial values first in the atomic statement that the boot function's block begins with, in place, and takes them.
#[tactic(auto, using(crate::proofs::Blocks::firsts))]
pub(crate) fn with_initial(
    alloc: Global,
    initial: &mut Vec<CoreStmt>,
    code: &mut CoreStmt,
) -> Result<(), NoMemory>
    ensures { IfOk result (λ _. stmt_of code.new ≡ spec.with_initial (map stmt_of initial.old.items) (stmt_of code.old)) }
{
    let Some(list) = taken(alloc, code) else {
        return Ok(());
    };
    put_block(code, with_first(alloc, initial, list)?);
    Ok(())
}
