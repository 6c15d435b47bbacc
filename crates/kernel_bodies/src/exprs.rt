//! Expressions in which each post becomes a call.

ghost use Rattle.std.specs.Prelude.{◌≡◌, IfOk};
ghost use Rattle.nesc_core.specs.View.{expr_of, exprs_of, place_of};
ghost use Rattle.task_queue.specs.Posting as posting;

use nesc_core::{CoreExpr, Place};
use nm_base::{IntType, List, NoMemory, Pos};
use std::alloc::Global;
use std::mem;

/// The place of code that stands in no text.
pub(crate) const NOWHERE: Pos = Pos {
    file: 0,
    line: 0,
    col: 0,
};

// A call of the function that queues a task.
fn post_call(alloc: Global, queue: u32, task: u32) -> Result<CoreExpr, NoMemory>
    ensures { IfOk result (λ call. expr_of call ≡ posting.post_call queue task) }
{
    let args = Vec::from_array(alloc, [CoreExpr::Const(IntType::U8, task as i64)])?;
    Ok(CoreExpr::Call(queue, List::new(args), NOWHERE))
}

/// Makes each post of an expression a call of function `queue`.
#[cycle(posting)]
#[tactic(auto, using(crate::proofs::Lists::call_posted))]
pub(crate) fn post_in_expr(alloc: Global, queue: u32, e: &mut CoreExpr) -> Result<(), NoMemory>
    ensures { IfOk result (λ _. expr_of e.new ≡ posting.posting_expr queue (expr_of e.old)) }
{
    match e {
        CoreExpr::Const(_, _) | CoreExpr::Null | CoreExpr::In(_) => Ok(()),
        CoreExpr::Post(task) => {
            let call = post_call(alloc, queue, *task)?;
            *e = call;
            Ok(())
        }
        CoreExpr::Read(place, _) => post_in_place(alloc, queue, place),
        CoreExpr::Addr(place) => post_in_place(alloc, queue, place),
        CoreExpr::Un(_, _, a) => post_in_boxed(alloc, queue, a),
        CoreExpr::Convert(_, a) => post_in_boxed(alloc, queue, a),
        CoreExpr::Out(_, a) => post_in_boxed(alloc, queue, a),
        CoreExpr::Bin(_, _, a, b) => {
            post_in_boxed(alloc, queue, a)?;
            post_in_boxed(alloc, queue, b)
        }
        CoreExpr::Offset(a, b, _) => {
            post_in_boxed(alloc, queue, a)?;
            post_in_boxed(alloc, queue, b)
        }
        CoreExpr::Distance(a, b, _) => {
            post_in_boxed(alloc, queue, a)?;
            post_in_boxed(alloc, queue, b)
        }
        CoreExpr::And(a, b) => {
            post_in_boxed(alloc, queue, a)?;
            post_in_boxed(alloc, queue, b)
        }
        CoreExpr::Or(a, b) => {
            post_in_boxed(alloc, queue, a)?;
            post_in_boxed(alloc, queue, b)
        }
        CoreExpr::Comma(a, b) => {
            post_in_boxed(alloc, queue, a)?;
            post_in_boxed(alloc, queue, b)
        }
        CoreExpr::Cond(a, b, c) => {
            post_in_boxed(alloc, queue, a)?;
            post_in_boxed(alloc, queue, b)?;
            post_in_boxed(alloc, queue, c)
        }
        CoreExpr::Assign(place, a, _) => {
            post_in_place(alloc, queue, place)?;
            post_in_boxed(alloc, queue, a)
        }
        CoreExpr::Update(place, _, _, a, _, _) => {
            post_in_place(alloc, queue, place)?;
            post_in_boxed(alloc, queue, a)
        }
        CoreExpr::Call(f, args, pos) => {
            let (f, pos) = (*f, *pos);
            let args = mem::replace(args, List::new(Vec::new(alloc)));
            let args = posted_args(alloc, queue, args)?;
            *e = CoreExpr::Call(f, args, pos);
            Ok(())
        }
    }
}

#[cycle(posting)]
fn post_in_place(alloc: Global, queue: u32, place: &mut Place) -> Result<(), NoMemory>
    ensures { IfOk result (λ _. place_of place.new ≡ posting.posting_place queue (place_of place.old)) }
{
    match place {
        Place::Object(_) | Place::Local(_) => Ok(()),
        Place::Deref(e, _) => post_in_boxed(alloc, queue, e),
        Place::Index(base, e) => {
            post_in_boxed_place(alloc, queue, base)?;
            post_in_boxed(alloc, queue, e)
        }
        Place::Field(base, _) => post_in_boxed_place(alloc, queue, base),
    }
}

#[cycle(posting)]
fn post_in_boxed(alloc: Global, queue: u32, e: &mut Box<CoreExpr>) -> Result<(), NoMemory>
    ensures { IfOk result (λ _. expr_of e.new.value ≡ posting.posting_expr queue (expr_of e.old.value)) }
{
    post_in_expr(alloc, queue, e)
}

#[cycle(posting)]
fn post_in_boxed_place(alloc: Global, queue: u32, place: &mut Box<Place>) -> Result<(), NoMemory>
    ensures { IfOk result (λ _. place_of place.new.value ≡ posting.posting_place queue (place_of place.old.value)) }
{
    post_in_place(alloc, queue, place)
}

/// Makes each post of a list of expressions a call of function `queue`.
#[cycle(posting)]
pub(crate) fn posted_args(
    alloc: Global,
    queue: u32,
    args: List<CoreExpr>,
) -> Result<List<CoreExpr>, NoMemory>
    ensures { IfOk result (λ list. exprs_of list ≡ posting.posting_exprs queue (exprs_of args)) }
{
    let mut items = args.into_vec();
    for e in items.iter_mut() {
        post_in_expr(alloc, queue, e)?;
    }
    Ok(List::new(items))
}
