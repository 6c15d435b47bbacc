//! The function that takes the first task out of the list.

ghost use Rattle.std.specs.Prelude.{◌≡◌, Some, IfOk};
ghost use Rattle.nm_base.specs.declared.int_type.IntType.TheVariants.{U8};
ghost use Rattle.nesc_core.specs.Plain as plain;
ghost use Rattle.nesc_core.specs.View.{body_of, expr_of, stmt_of};
ghost use Rattle.task_queue.specs.Kernel as own;

use crate::forms::{
    NONE, as_byte, atomic, block_of, branch, byte, differs, head, is_none, less, next_of_task,
    nothing, other, put, returned, tail, the_task, then, value_at, word,
};
use crate::queue::byte_body;
use nesc_core::{Body, CoreExpr, CoreStmt, Place};
use nm_base::{Name, NoMemory, beside};
use std::alloc::Global;

// ---- the first task is taken out

fn follower(alloc: Global, bytes: u32) -> Result<CoreStmt, NoMemory>
    ensures { IfOk result (λ s. stmt_of s ≡ own.put (plain.local 1) (own.value_at (own.next bytes own.the_task))) }
{
    let follower = value_at(next_of_task(alloc, bytes)?);
    put(alloc, Place::Local(1), follower)
}

// The next task is the first one.
fn advance(alloc: Global, bytes: u32) -> Result<CoreStmt, NoMemory>
    ensures { IfOk result (λ s. stmt_of s ≡ own.put (own.head bytes) own.other) }
{
    put(alloc, head(alloc, bytes)?, other())
}

// No task stands behind the one that is taken.
fn cut_off(alloc: Global, bytes: u32) -> Result<CoreStmt, NoMemory>
    ensures { IfOk result (λ s. stmt_of s ≡ own.put (own.next bytes own.the_task) (own.byte 0)) }
{
    put(alloc, next_of_task(alloc, bytes)?, byte(NONE))
}

fn none_last(alloc: Global, bytes: u32) -> Result<CoreStmt, NoMemory>
    ensures { IfOk result (λ s. stmt_of s ≡ own.put (own.tail bytes) (own.byte 0)) }
{
    put(alloc, tail(alloc, bytes)?, byte(NONE))
}

// Where no task is left, none is the last one.
fn emptied(alloc: Global, bytes: u32) -> Result<CoreStmt, NoMemory>
    ensures { IfOk result (λ s. stmt_of s ≡ plain.branch (own.is_equal own.the_other (own.word 0)) (own.put (own.tail bytes) (own.byte 0)) own.nothing) }
{
    let test = is_none(alloc)?;
    let (test, code) = beside(test, none_last(alloc, bytes))?;
    branch(alloc, test, code, nothing(alloc))
}

fn unlink(alloc: Global, bytes: u32) -> Result<CoreStmt, NoMemory>
    ensures { IfOk result (λ s. stmt_of s ≡ own.unlink bytes) }
{
    let code = then(Vec::new(alloc), follower(alloc, bytes))?;
    let code = then(code, advance(alloc, bytes))?;
    let code = then(code, cut_off(alloc, bytes))?;
    let code = then(code, emptied(alloc, bytes))?;
    Ok(block_of(code))
}

// ---- the whole

fn first(alloc: Global, bytes: u32) -> Result<CoreStmt, NoMemory>
    ensures { IfOk result (λ s. stmt_of s ≡ own.put (plain.local 0) (own.value_at (own.head bytes))) }
{
    let value = value_at(head(alloc, bytes)?);
    put(alloc, Place::Local(0), value)
}

fn is_task(alloc: Global) -> Result<CoreExpr, NoMemory>
    ensures { IfOk result (λ e. expr_of e ≡ own.differs own.the_task (own.word 0)) }
{
    let task = the_task(alloc)?;
    differs(alloc, task, word(NONE))
}

fn unlinked(alloc: Global, bytes: u32) -> Result<CoreStmt, NoMemory>
    ensures { IfOk result (λ s. stmt_of s ≡ plain.branch (own.differs own.the_task (own.word 0)) (own.unlink bytes) own.nothing) }
{
    let test = is_task(alloc)?;
    let (test, code) = beside(test, unlink(alloc, bytes))?;
    branch(alloc, test, code, nothing(alloc))
}

// The task's place, which is 255 where there is no task.
fn place(alloc: Global) -> Result<CoreExpr, NoMemory>
    ensures { IfOk result (λ e. expr_of e ≡ plain.convert U8 (own.less own.the_task (own.word 1))) }
{
    let task = the_task(alloc)?;
    let place = less(alloc, task, word(1))?;
    as_byte(alloc, place)
}

fn given(alloc: Global) -> Result<CoreStmt, NoMemory>
    ensures { IfOk result (λ s. stmt_of s ≡ plain.return (Some (plain.convert U8 (own.less own.the_task (own.word 1))))) }
{
    Ok(returned(place(alloc)?))
}

fn pop_code(alloc: Global, bytes: u32) -> Result<CoreStmt, NoMemory>
    ensures { IfOk result (λ s. stmt_of s ≡ own.pop_code bytes) }
{
    let code = then(Vec::new(alloc), first(alloc, bytes))?;
    let code = then(code, unlinked(alloc, bytes))?;
    let code = then(code, given(alloc))?;
    atomic(alloc, code)
}

/// The body that takes the first task and gives it, or gives 255 where there is none.
pub(crate) fn pop_body(alloc: Global, bytes: u32) -> Result<Body, NoMemory>
    ensures { IfOk result (λ b. body_of b ≡ own.pop_body bytes) }
{
    let code = pop_code(alloc, bytes)?;
    let (code, name) = beside(code, Name::new(alloc, b"pop"))?;
    byte_body(alloc, name, 0, code)
}
