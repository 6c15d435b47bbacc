//! The function that puts a task last in the list.

ghost use Rattle.std.specs.Prelude.{◌≡◌, false, ◌∷◌, [], Some, IfOk, map};
ghost use Rattle.nm_base.specs.declared.int_type.IntType.TheVariants.{U8};
ghost use Rattle.nesc_core.specs.Plain as plain;
ghost use Rattle.nesc_core.specs.Plain.{int};
ghost use Rattle.nesc_core.specs.View.{body_of, expr_of, stmt_of, type_of};
ghost use Rattle.task_queue.specs.Kernel as own;

use crate::forms::{
    NONE, as_byte, atomic, branch, byte, differs, either, head, is_equal, is_none, next,
    next_of_task, nothing, put, returned, sum, tail, task, the_other, the_task, then, value_at,
    word, word_at,
};
use nesc_core::{Body, CoreExpr, CoreStmt, CoreType, Place};
use nm_base::{IntType, List, Name, NoMemory, beside};
use std::alloc::Global;

/// What a post answers where the task was put into the list.
const SUCCESS: u32 = 0;

/// What a post answers where the task waits already.
const BUSY: u32 = 5;

// ---- the two locals

fn entry(alloc: Global) -> Result<CoreExpr, NoMemory>
    ensures { IfOk result (λ e. expr_of e ≡ plain.convert U8 (own.sum own.the_task (own.word 1))) }
{
    let task = the_task(alloc)?;
    let entry = sum(alloc, task, word(1))?;
    as_byte(alloc, entry)
}

// The task that is passed, as a byte has it.
fn passed(alloc: Global) -> Result<CoreStmt, NoMemory>
    ensures { IfOk result (λ s. stmt_of s ≡ own.put (plain.local 0) (plain.convert U8 (own.sum own.the_task (own.word 1)))) }
{
    let entry = entry(alloc)?;
    put(alloc, Place::Local(0), entry)
}

fn last(alloc: Global, bytes: u32) -> Result<CoreStmt, NoMemory>
    ensures { IfOk result (λ s. stmt_of s ≡ own.put (plain.local 1) (own.value_at (own.tail bytes))) }
{
    let last = value_at(tail(alloc, bytes)?);
    put(alloc, Place::Local(1), last)
}

// ---- a task that waits

// Whether a task stands behind this one.
fn is_followed(alloc: Global, bytes: u32) -> Result<CoreExpr, NoMemory>
    ensures { IfOk result (λ e. expr_of e ≡ own.differs (own.word_at (own.next bytes own.the_task)) (own.word 0)) }
{
    let follower = word_at(alloc, next_of_task(alloc, bytes)?)?;
    differs(alloc, follower, word(NONE))
}

fn is_last(alloc: Global) -> Result<CoreExpr, NoMemory>
    ensures { IfOk result (λ e. expr_of e ≡ own.is_equal own.the_other own.the_task) }
{
    let last = the_other(alloc)?;
    let (last, task) = beside(last, the_task(alloc))?;
    is_equal(alloc, last, task)
}

fn waits(alloc: Global, bytes: u32) -> Result<CoreExpr, NoMemory>
    ensures { IfOk result (λ e. expr_of e ≡ own.waits bytes) }
{
    let followed = is_followed(alloc, bytes)?;
    let (followed, last) = beside(followed, is_last(alloc))?;
    either(alloc, followed, last)
}

fn refusal(alloc: Global, bytes: u32) -> Result<CoreStmt, NoMemory>
    ensures { IfOk result (λ s. stmt_of s ≡ plain.branch (own.waits bytes) (plain.return (Some (own.byte own.busy))) own.nothing) }
{
    let test = waits(alloc, bytes)?;
    branch(alloc, test, returned(byte(BUSY)), nothing(alloc))
}

// ---- a task that is put last

fn becomes_first(alloc: Global, bytes: u32) -> Result<CoreStmt, NoMemory>
    ensures { IfOk result (λ s. stmt_of s ≡ own.put (own.head bytes) own.task) }
{
    put(alloc, head(alloc, bytes)?, task())
}

fn stands_behind(alloc: Global, bytes: u32) -> Result<CoreStmt, NoMemory>
    ensures { IfOk result (λ s. stmt_of s ≡ own.put (own.next bytes own.the_other) own.task) }
{
    let last = the_other(alloc)?;
    put(alloc, next(alloc, bytes, last)?, task())
}

fn link(alloc: Global, bytes: u32) -> Result<CoreStmt, NoMemory>
    ensures { IfOk result (λ s. stmt_of s ≡ own.link bytes) }
{
    let test = is_none(alloc)?;
    let (test, first) = beside(test, becomes_first(alloc, bytes))?;
    let ((test, first), behind) = beside((test, first), stands_behind(alloc, bytes))?;
    branch(alloc, test, first, behind)
}

fn becomes_last(alloc: Global, bytes: u32) -> Result<CoreStmt, NoMemory>
    ensures { IfOk result (λ s. stmt_of s ≡ own.put (own.tail bytes) own.task) }
{
    put(alloc, tail(alloc, bytes)?, task())
}

// ---- the whole

fn queue_code(alloc: Global, bytes: u32) -> Result<CoreStmt, NoMemory>
    ensures { IfOk result (λ s. stmt_of s ≡ own.queue_code bytes) }
{
    let code = then(Vec::new(alloc), passed(alloc))?;
    let code = then(code, last(alloc, bytes))?;
    let code = then(code, refusal(alloc, bytes))?;
    let code = then(code, link(alloc, bytes))?;
    let code = then(code, becomes_last(alloc, bytes))?;
    let code = then(code, Ok(returned(byte(SUCCESS))))?;
    atomic(alloc, code)
}

/// The body that puts a task last, and answers whether it waited already.
pub(crate) fn queue_body(alloc: Global, bytes: u32) -> Result<Body, NoMemory>
    ensures { IfOk result (λ b. body_of b ≡ own.queue_body bytes) }
{
    let code = queue_code(alloc, bytes)?;
    let (code, name) = beside(code, Name::new(alloc, b"queue"))?;
    byte_body(alloc, name, 1, code)
}

/// A body with these parameters and two locals, bytes, that gives a byte.
pub(crate) fn byte_body(
    alloc: Global,
    name: Name,
    params: u32,
    code: CoreStmt,
) -> Result<Body, NoMemory>
    ensures { IfOk result (λ b. body_of b ≡ record { name = name; params = params; locals = int U8 ∷ int U8 ∷ []; result = int U8; code = stmt_of code; is_async = false; is_item = false }) }
{
    let ((name, code), locals) = beside((name, code), two_bytes(alloc))?;
    Ok(Body {
        name,
        params,
        locals,
        result: CoreType::Int(IntType::U8),
        code,
        is_async: false,
        is_item: false,
    })
}

fn two_bytes(alloc: Global) -> Result<List<CoreType>, NoMemory>
    ensures { IfOk result (λ types. map type_of types ≡ int U8 ∷ int U8 ∷ []) }
{
    let types = vec![in alloc; CoreType::Int(IntType::U8), CoreType::Int(IntType::U8)]?;
    Ok(List::new(types))
}
