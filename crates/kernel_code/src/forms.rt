//! Short forms of the kernel's own code.

ghost use Rattle.std.specs.Prelude.{◌≡◌, ◌∷◌, ◌++◌, [], Ok, Some, IfOk};
ghost use Rattle.nm_base.specs.declared.int_type.IntType.TheVariants.{U8, U16};
ghost use Rattle.nesc_core.specs.Plain as plain;
ghost use Rattle.nesc_core.specs.View.{expr_of, place_of, stmt_of, stmts_of};
ghost use Rattle.task_queue.specs.Kernel as own;
ghost use Rattle.task_queue.specs.Posting.{nowhere};

use nesc_core::{BinOp, CoreExpr, CoreStmt, Place};
use nm_base::{IntType, List, NoMemory, Pos, beside};
use std::alloc::Global;
use std::mem::replace;

/// The place of code that stands in no text.
pub(crate) const NOWHERE: Pos = Pos {
    file: 0,
    line: 0,
    col: 0,
};

/// What stands for no task in a byte; the task at place k is k + 1.
pub(crate) const NONE: u32 = 0;

// ---- boxes and lists

/// A value in a box.
pub(crate) fn boxed<T: Drop>(alloc: Global, value: T) -> Result<Box<T>, NoMemory>
    ensures { IfOk result (λ b. b.value ≡ value) }
{
    Ok(Box::new(alloc, value)?)
}

/// Two values, each in a box.
pub(crate) fn boxed_pair<T: Drop, U: Drop>(
    alloc: Global,
    first: T,
    second: U,
) -> Result<(Box<T>, Box<U>), NoMemory>
    ensures { IfOk result (λ pair. (pair.0.value ≡ first) × (pair.1.value ≡ second)) }
{
    let (second, first) = beside(second, boxed(alloc, first))?;
    beside(first, boxed(alloc, second))
}

/// The items, and the next one behind them.
pub(crate) fn then<T: Drop>(items: Vec<T>, next: Result<T, NoMemory>) -> Result<Vec<T>, NoMemory>
    ensures { IfOk result (λ v. (x : T) × (next ≡ Ok x) × (v.items ≡ items.items ++ (x ∷ []))) }
{
    let mut items = items;
    items.push(next?)?;
    Ok(items)
}

/// One more item in a list.
pub(crate) fn grow<T: Drop>(alloc: Global, list: &mut List<T>, item: T) -> Result<(), NoMemory>
    ensures { IfOk result (λ _. list.new ≡ list.old ++ (item ∷ [])) }
{
    let mut items = replace(list, List::new(Vec::new(alloc))).into_vec();
    let pushed = items.push(item);
    *list = List::new(items);
    pushed?;
    Ok(())
}

// ---- expressions

/// A number of 16 bits.
pub(crate) fn word(n: u32) -> CoreExpr
    ensures { expr_of result ≡ own.word n }
{
    CoreExpr::Const(IntType::U16, i64::from(n))
}

/// A number of 8 bits.
pub(crate) fn byte(n: u32) -> CoreExpr
    ensures { expr_of result ≡ own.byte n }
{
    CoreExpr::Const(IntType::U8, i64::from(n))
}

/// What a place holds.
pub(crate) fn value_at(place: Place) -> CoreExpr
    ensures { expr_of result ≡ own.value_at (place_of place) }
{
    CoreExpr::Read(place, NOWHERE)
}

/// What a place holds, as a number of 16 bits.
pub(crate) fn word_at(alloc: Global, place: Place) -> Result<CoreExpr, NoMemory>
    ensures { IfOk result (λ e. expr_of e ≡ own.word_at (place_of place)) }
{
    Ok(CoreExpr::Convert(IntType::U16, boxed(alloc, value_at(place))?))
}

/// The task that the first local holds.
pub(crate) fn task() -> CoreExpr
    ensures { expr_of result ≡ own.task }
{
    value_at(Place::Local(0))
}

/// The same as a number of 16 bits.
pub(crate) fn the_task(alloc: Global) -> Result<CoreExpr, NoMemory>
    ensures { IfOk result (λ e. expr_of e ≡ own.the_task) }
{
    word_at(alloc, Place::Local(0))
}

/// The task before or behind it, which the second local holds.
pub(crate) fn other() -> CoreExpr
    ensures { expr_of result ≡ own.other }
{
    value_at(Place::Local(1))
}

/// The same as a number of 16 bits.
pub(crate) fn the_other(alloc: Global) -> Result<CoreExpr, NoMemory>
    ensures { IfOk result (λ e. expr_of e ≡ own.the_other) }
{
    word_at(alloc, Place::Local(1))
}

// An operator on two numbers of 16 bits.
fn binary(alloc: Global, op: BinOp, a: CoreExpr, b: CoreExpr) -> Result<CoreExpr, NoMemory>
    ensures { IfOk result (λ e. expr_of e ≡ plain.bin op U16 (expr_of a) (expr_of b)) }
{
    let (a, b) = boxed_pair(alloc, a, b)?;
    Ok(CoreExpr::Bin(op, IntType::U16, a, b))
}

/// Whether two numbers are equal.
pub(crate) fn is_equal(alloc: Global, a: CoreExpr, b: CoreExpr) -> Result<CoreExpr, NoMemory>
    ensures { IfOk result (λ e. expr_of e ≡ own.is_equal (expr_of a) (expr_of b)) }
{
    binary(alloc, BinOp::Eq, a, b)
}

/// Whether two numbers differ.
pub(crate) fn differs(alloc: Global, a: CoreExpr, b: CoreExpr) -> Result<CoreExpr, NoMemory>
    ensures { IfOk result (λ e. expr_of e ≡ own.differs (expr_of a) (expr_of b)) }
{
    binary(alloc, BinOp::Ne, a, b)
}

/// Whether no task stands in the second local.
pub(crate) fn is_none(alloc: Global) -> Result<CoreExpr, NoMemory>
    ensures { IfOk result (λ e. expr_of e ≡ own.is_equal own.the_other (own.word 0)) }
{
    let other = the_other(alloc)?;
    is_equal(alloc, other, word(NONE))
}

/// The sum of two numbers.
pub(crate) fn sum(alloc: Global, a: CoreExpr, b: CoreExpr) -> Result<CoreExpr, NoMemory>
    ensures { IfOk result (λ e. expr_of e ≡ own.sum (expr_of a) (expr_of b)) }
{
    binary(alloc, BinOp::Add, a, b)
}

/// One number less another.
pub(crate) fn less(alloc: Global, a: CoreExpr, b: CoreExpr) -> Result<CoreExpr, NoMemory>
    ensures { IfOk result (λ e. expr_of e ≡ own.less (expr_of a) (expr_of b)) }
{
    binary(alloc, BinOp::Sub, a, b)
}

/// A number as one of 8 bits.
pub(crate) fn as_byte(alloc: Global, e: CoreExpr) -> Result<CoreExpr, NoMemory>
    ensures { IfOk result (λ made. expr_of made ≡ plain.convert U8 (expr_of e)) }
{
    Ok(CoreExpr::Convert(IntType::U8, boxed(alloc, e)?))
}

/// Whether one of two tests holds.
pub(crate) fn either(alloc: Global, a: CoreExpr, b: CoreExpr) -> Result<CoreExpr, NoMemory>
    ensures { IfOk result (λ e. expr_of e ≡ plain.either (expr_of a) (expr_of b)) }
{
    let (a, b) = boxed_pair(alloc, a, b)?;
    Ok(CoreExpr::Or(a, b))
}

fn assigned(alloc: Global, place: Place, value: CoreExpr) -> Result<CoreExpr, NoMemory>
    ensures { IfOk result (λ e. expr_of e ≡ plain.assign (place_of place) (expr_of value) nowhere) }
{
    let (place, value) = beside(place, boxed(alloc, value))?;
    Ok(CoreExpr::Assign(place, value, NOWHERE))
}

// ---- places in the bytes

/// One of the bytes, by an expression for its place among them.
pub(crate) fn byte_of(alloc: Global, bytes: u32, at: CoreExpr) -> Result<Place, NoMemory>
    ensures { IfOk result (λ place. place_of place ≡ own.byte_of bytes (expr_of at)) }
{
    let (base, at) = boxed_pair(alloc, Place::Object(bytes), at)?;
    Ok(Place::Index(base, at))
}

/// The byte of the first task.
pub(crate) fn head(alloc: Global, bytes: u32) -> Result<Place, NoMemory>
    ensures { IfOk result (λ place. place_of place ≡ own.head bytes) }
{
    byte_of(alloc, bytes, word(0))
}

/// The byte of the last task.
pub(crate) fn tail(alloc: Global, bytes: u32) -> Result<Place, NoMemory>
    ensures { IfOk result (λ place. place_of place ≡ own.tail bytes) }
{
    byte_of(alloc, bytes, word(1))
}

/// The byte of the task behind a task.
pub(crate) fn next(alloc: Global, bytes: u32, task: CoreExpr) -> Result<Place, NoMemory>
    ensures { IfOk result (λ place. place_of place ≡ own.next bytes (expr_of task)) }
{
    let at = sum(alloc, task, word(1))?;
    byte_of(alloc, bytes, at)
}

/// The byte of the task behind that which the first local holds.
pub(crate) fn next_of_task(alloc: Global, bytes: u32) -> Result<Place, NoMemory>
    ensures { IfOk result (λ place. place_of place ≡ own.next bytes own.the_task) }
{
    let task = the_task(alloc)?;
    next(alloc, bytes, task)
}

// ---- statements

/// A value goes to a place.
pub(crate) fn put(alloc: Global, place: Place, value: CoreExpr) -> Result<CoreStmt, NoMemory>
    ensures { IfOk result (λ s. stmt_of s ≡ own.put (place_of place) (expr_of value)) }
{
    Ok(CoreStmt::Eval(assigned(alloc, place, value)?))
}

/// One statement where a test holds, and else the other.
pub(crate) fn branch(
    alloc: Global,
    test: CoreExpr,
    code: CoreStmt,
    other: CoreStmt,
) -> Result<CoreStmt, NoMemory>
    ensures { IfOk result (λ s. stmt_of s ≡ plain.branch (expr_of test) (stmt_of code) (stmt_of other)) }
{
    let (test, (code, other)) = beside(test, boxed_pair(alloc, code, other))?;
    Ok(CoreStmt::If(test, code, other))
}

/// A block.
pub(crate) fn block_of(code: Vec<CoreStmt>) -> CoreStmt
    ensures { stmt_of result ≡ plain.block (stmts_of code.items) }
{
    CoreStmt::Block(List::new(code))
}

/// The empty statement.
pub(crate) fn nothing(alloc: Global) -> CoreStmt
    ensures { stmt_of result ≡ own.nothing }
{
    block_of(Vec::new(alloc))
}

/// An atomic block.
pub(crate) fn atomic(alloc: Global, code: Vec<CoreStmt>) -> Result<CoreStmt, NoMemory>
    ensures { IfOk result (λ s. stmt_of s ≡ plain.atomic (plain.block (stmts_of code.items))) }
{
    Ok(CoreStmt::Atomic(boxed(alloc, block_of(code))?))
}

/// A value is given back.
pub(crate) fn returned(value: CoreExpr) -> CoreStmt
    ensures { stmt_of result ≡ plain.return (Some (expr_of value)) }
{
    CoreStmt::Return(Some(value))
}
