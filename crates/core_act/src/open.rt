//! Trees as the tasks of their parts, in the order in which these are done.

ghost use Rattle.core_act.specs.Moves.{OpensPlace, OpensStmt, OpensValue};
ghost use Rattle.core_act.specs.Scopes.{IsHeld};
ghost use Rattle.core_act.specs.declared.task.Access.TheVariants as AccessOf;
ghost use Rattle.core_act.specs.declared.scope.Scope.{Scope as ScopeOf};
ghost use Rattle.core_act.specs.declared.task.Task.TheVariants as tasks_of;
ghost use Rattle.core_act.specs.declared.task.Way.TheVariants as WayOf;
ghost use Rattle.nesc_core.specs.Heres as heres;
ghost use Rattle.nesc_core.specs.Plain as plain;
ghost use Rattle.nesc_core.specs.View.{expr_of, exprs_of, maybe_expr_of, place_of, stmt_of};
ghost use Rattle.std.specs.Prelude.{◌≡◌, ◌∷◌, OnOk, if◌then◌else◌};

use crate::changes::Change;
use crate::given::gives_value;
use crate::places::{local, object};
use crate::scope::Scope;
use crate::stack::{Stack, push_three, push_two};
use crate::task::{Access, Arguments, Callee, Logical, Loop, Operation, Stage, Task, Way};
use core_meaning::Flow;
use nesc_core::{CoreExpr, CoreStmt, Place};
use nm_base::{Action, IntType, NoMemory};
use std::alloc::Global;

/// The tasks of an expression.
pub(crate) fn open_value<'a>(
    alloc: Global,
    e: &'a CoreExpr,
    tasks: &mut Stack<Task<'a>>,
) -> Result<(), NoMemory>
    ensures { OnOk result ((s : ScopeOf) → OpensValue s (expr_of e.entry.now) tasks.old tasks.new) }
{
    match e {
        CoreExpr::Const(_, x) => tasks.push(Task::Operate(Operation::Give(*x))),
        CoreExpr::Null => tasks.push(Task::Operate(Operation::Give(0))),
        CoreExpr::Read(place, _) => {
            push_two(tasks, Task::Find(place), Task::Access(Access::Load, place))
        }
        CoreExpr::Addr(place) => push_two(
            tasks,
            Task::Find(place),
            Task::Access(Access::Address, place),
        ),
        CoreExpr::Un(op, t, a) => operand(tasks, a, Operation::Unary(*op, *t)),
        CoreExpr::Bin(op, t, a, b) => operands(tasks, a, b, Operation::Binary(*op, *t)),
        CoreExpr::Convert(t, a) => operand(tasks, a, Operation::Convert(*t)),
        CoreExpr::Offset(a, b, size) => operands(tasks, a, b, Operation::Offset(*size)),
        CoreExpr::Distance(a, b, size) => operands(tasks, a, b, Operation::Distance(*size)),
        CoreExpr::And(a, b) => push_two(tasks, Task::Value(a), Task::Second(Logical::And, b)),
        CoreExpr::Or(a, b) => push_two(tasks, Task::Value(a), Task::Second(Logical::Or, b)),
        CoreExpr::Cond(test, a, b) => push_two(tasks, Task::Value(test), Task::Cond(a, b)),
        CoreExpr::Assign(place, a, _) => push_three(
            tasks,
            Task::Find(place),
            Task::Value(a),
            Task::Access(Access::Store, place),
        ),
        CoreExpr::Update(place, op, t, a, gives_old, _) => {
            let change = Change {
                op: *op,
                at: *t,
                gives_old: *gives_old,
            };
            update(tasks, place, change, a)
        }
        CoreExpr::Call(f, args, _) => tasks.push(Task::Pass(Arguments {
            to: Callee::Body(*f),
            passed: Vec::new(alloc),
            rest: args.as_slice(),
        })),
        CoreExpr::Post(k) => push_two(
            tasks,
            Task::Operate(Operation::Ask(Action::Post(*k))),
            Task::Operate(Operation::Convert(IntType::U8)),
        ),
        CoreExpr::In(port) => tasks.push(Task::Operate(Operation::Ask(Action::In(*port)))),
        CoreExpr::Out(port, a) => operand(tasks, a, Operation::Out(*port)),
        CoreExpr::Comma(a, b) => push_three(
            tasks,
            Task::Value(a),
            Task::Operate(Operation::Drop),
            Task::Value(b),
        ),
    }
}

fn operand<'a>(
    tasks: &mut Stack<Task<'a>>,
    a: &'a CoreExpr,
    operation: Operation,
) -> Result<(), NoMemory>
    ensures { OnOk result (tasks.new ≡ tasks_of.Value a.entry ∷ tasks_of.Operate operation ∷ tasks.old) }
{
    push_two(tasks, Task::Value(a), Task::Operate(operation))
}

fn operands<'a>(
    tasks: &mut Stack<Task<'a>>,
    a: &'a CoreExpr,
    b: &'a CoreExpr,
    operation: Operation,
) -> Result<(), NoMemory>
    ensures { OnOk result (tasks.new ≡ tasks_of.Value a.entry ∷ tasks_of.Value b.entry ∷ tasks_of.Operate operation ∷ tasks.old) }
{
    push_three(
        tasks,
        Task::Value(a),
        Task::Value(b),
        Task::Operate(operation),
    )
}

// The place, its old value, the other operand, then the store.
fn update<'a>(
    tasks: &mut Stack<Task<'a>>,
    place: &'a Place,
    change: Change,
    a: &'a CoreExpr,
) -> Result<(), NoMemory>
    ensures { OnOk result (tasks.new ≡ tasks_of.Find place.entry ∷ tasks_of.Access AccessOf.Old place.entry ∷ tasks_of.Value a.entry ∷ tasks_of.Access (AccessOf.Change change) place.entry ∷ tasks.old) }
{
    push_two(
        tasks,
        Task::Value(a),
        Task::Access(Access::Change(change), place),
    )?;
    push_two(tasks, Task::Find(place), Task::Access(Access::Old, place))
}

/// The tasks of a place.
pub(crate) fn open_place<'a>(
    scope: &Scope<'a>,
    place: &'a Place,
    tasks: &mut Stack<Task<'a>>,
) -> Result<(), NoMemory>
    requires { IsHeld scope.now }
    ensures { OnOk result (OpensPlace scope.now (place_of place.entry.now) tasks.old tasks.new) }
{
    match place {
        Place::Object(k) => tasks.push(Task::At(object(scope.program, *k))),
        Place::Local(x) => tasks.push(Task::At(local(scope, *x))),
        Place::Deref(e, t) => push_two(tasks, Task::Value(e), Task::Point(t)),
        Place::Index(base, e) => open_element(base, e, tasks),
        Place::Field(base, k) => open_field(base, *k, tasks),
    }
}

fn open_element<'a>(
    base: &'a Place,
    e: &'a CoreExpr,
    tasks: &mut Stack<Task<'a>>,
) -> Result<(), NoMemory>
    ensures { OnOk result (tasks.new ≡ tasks_of.Find base.entry ∷ tasks_of.Value e.entry ∷ tasks_of.Access AccessOf.Index base.entry ∷ tasks.old) }
{
    push_three(
        tasks,
        Task::Find(base),
        Task::Value(e),
        Task::Access(Access::Index, base),
    )
}

fn open_field<'a>(base: &'a Place, k: u32, tasks: &mut Stack<Task<'a>>) -> Result<(), NoMemory>
    ensures { OnOk result (tasks.new ≡ tasks_of.Find base.entry ∷ tasks_of.Access (AccessOf.Field k) base.entry ∷ tasks.old) }
{
    push_two(
        tasks,
        Task::Find(base),
        Task::Access(Access::Field(k), base),
    )
}

/// The tasks of a statement.
pub(crate) fn open_statement<'a>(
    scope: &Scope<'a>,
    s: &'a CoreStmt,
    tasks: &mut Stack<Task<'a>>,
) -> Result<(), NoMemory>
    ensures { OnOk result (OpensStmt scope.now (stmt_of s.entry.now) tasks.old tasks.new) }
{
    match s {
        CoreStmt::Eval(e) => push_three(
            tasks,
            Task::Value(e),
            Task::Operate(Operation::Drop),
            Task::Leave(Way::By(Flow::On)),
        ),
        CoreStmt::Block(list) => push_two(
            tasks,
            Task::Leave(Way::By(Flow::On)),
            Task::Rest(list.as_slice()),
        ),
        CoreStmt::If(test, a, b) => push_two(tasks, Task::Value(test), Task::If(a, b)),
        CoreStmt::Loop {
            first,
            test,
            step,
            body,
        } => {
            let turn = Loop {
                first: *first,
                test,
                step,
                body,
            };
            tasks.push(Task::Repeat(Stage::Begins, turn, scope.turns))
        }
        CoreStmt::Switch(e, cases, list) => push_three(
            tasks,
            Task::Value(e),
            Task::Switch(cases, list),
            Task::Leave(Way::OutOfSwitch),
        ),
        CoreStmt::Break => tasks.push(Task::Leave(Way::By(Flow::Broke))),
        CoreStmt::Continue => tasks.push(Task::Leave(Way::By(Flow::Continued))),
        CoreStmt::Return(e) => open_return(e, tasks),
        CoreStmt::Atomic(inner) => push_three(
            tasks,
            Task::Operate(Operation::Perform(Action::Begin)),
            Task::Run(inner),
            Task::Operate(Operation::Perform(Action::End)),
        ),
        CoreStmt::Clear(x) => { push_two(tasks, Task::Clear(*x), Task::Leave(Way::By(Flow::On))) }
        CoreStmt::Here {
            args,
            first,
            count,
            body,
        } => open_here(scope.alloc, args.as_slice(), *first, *count, body, tasks),
    }
}

fn open_return<'a>(e: &'a Option<CoreExpr>, tasks: &mut Stack<Task<'a>>) -> Result<(), NoMemory>
    ensures { OnOk result ((s : ScopeOf) → OpensStmt s (plain.return (maybe_expr_of e.entry.now)) tasks.old tasks.new) }
{
    match e {
        None => tasks.push(Task::Leave(Way::By(Flow::Gave(0)))),
        Some(e) => push_two(tasks, Task::Value(e), Task::Leave(Way::Gives)),
    }
}

// An inlined call.
fn open_here<'a>(
    alloc: Global,
    args: &'a [CoreExpr],
    first: u32,
    count: u32,
    body: &'a CoreStmt,
    tasks: &mut Stack<Task<'a>>,
) -> Result<(), NoMemory>
    ensures { OnOk result ((s : ScopeOf) → OpensStmt s (plain.here (exprs_of args.entry.now) first count (stmt_of body.entry.now)) tasks.old tasks.new) }
{
    let arguments = Arguments {
        to: Callee::Here(first, count),
        passed: Vec::new(alloc),
        rest: args,
    };
    let tick = Operation::Perform(Action::Tick);
    push_three(
        tasks,
        Task::Run(body),
        Task::Operate(tick),
        end_of_here(body, first as usize + count as usize),
    )?;
    push_two(tasks, Task::Pass(arguments), Task::Operate(tick))
}

// What comes behind the code of an inlined call: its result, if it has one, goes to this local.
fn end_of_here<'a>(body: &CoreStmt, place: usize) -> Task<'a>
    ensures { result ≡ (if heres.gives_value (stmt_of body.now) then tasks_of.Keep place else tasks_of.Leave WayOf.OutOfCall) }
{
    if gives_value(body) {
        Task::Keep(place)
    } else {
        Task::Leave(Way::OutOfCall)
    }
}
