//! The turns of loops.

ghost use Rattle.core_act.specs.Moves.{Moves, OpensStep};
ghost use Rattle.core_act.specs.declared.log.Log.{Log as LogOf};
ghost use Rattle.core_act.specs.declared.scope.Scope.{Scope as ScopeOf};
ghost use Rattle.core_act.specs.declared.task.Stage.TheVariants as StageOf;
ghost use Rattle.core_act.specs.declared.task.Task.TheVariants as tasks_of;
ghost use Rattle.core_meaning.specs.declared.flow.Flow.{Flow as FlowOf};
ghost use Rattle.nesc_core.specs.View.{maybe_expr_of};
ghost use Rattle.std.specs.Prelude.{List as ListOf, ℤ, OnOk};

use crate::flow::left_loop;
use crate::log::{Log, cut};
use crate::stack::{Stack, pop_or, push_three, push_two};
use crate::task::{Loop, Operation, Stage, Task, Way};
use core_meaning::Flow;
use core_numbers::is_zero;
use nesc_core::CoreExpr;
use nm_base::{Action, NoMemory};

/// Goes on with a loop.
pub(crate) fn repeat<'a>(
    stage: Stage,
    turn: Loop<'a>,
    left: u32,
    values: &mut Stack<i64>,
    flows: &mut Stack<Flow>,
    tasks: &mut Stack<Task<'a>>,
    log: &mut Log<'_>,
) -> Result<(), NoMemory>
    ensures { OnOk result ((s : ScopeOf) → Moves s (tasks_of.Repeat stage turn.entry left) tasks.old values.old flows.old log.old tasks.new values.new flows.new log.new) }
{
    match stage {
        Stage::Begins => begin_turn(turn, left, tasks, log),
        Stage::Tested => behind_test(turn, left, values, tasks),
        Stage::Left => behind_body(turn, left, flows, tasks),
    }
}

// A turn of a loop, if one is left.
fn begin_turn<'a>(
    turn: Loop<'a>,
    left: u32,
    tasks: &mut Stack<Task<'a>>,
    log: &mut Log<'_>,
) -> Result<(), NoMemory>
    ensures { OnOk result ((s : ScopeOf) (vs : ListOf ℤ) (fs : ListOf FlowOf) → Moves s (tasks_of.Repeat StageOf.Begins turn.entry left) tasks.old vs fs log.old tasks.new vs fs log.new) }
{
    if left == 0 {
        cut(log);
        return Ok(());
    }
    let tick = Task::Operate(Operation::Perform(Action::Tick));
    if turn.first {
        push_three(
            tasks,
            tick,
            Task::Value(turn.test),
            Task::Repeat(Stage::Tested, turn, left - 1),
        )
    } else {
        push_three(
            tasks,
            tick,
            Task::Run(turn.body),
            Task::Repeat(Stage::Left, turn, left - 1),
        )
    }
}

// Behind the test of a loop.
fn behind_test<'a>(
    turn: Loop<'a>,
    left: u32,
    values: &mut Stack<i64>,
    tasks: &mut Stack<Task<'a>>,
) -> Result<(), NoMemory>
    ensures { OnOk result ((s : ScopeOf) (fs : ListOf FlowOf) (log : LogOf) → Moves s (tasks_of.Repeat StageOf.Tested turn.entry left) tasks.old values.old fs log tasks.new values.new fs log) }
{
    if is_zero(pop_or(values, 0)) {
        return tasks.push(Task::Leave(Way::By(Flow::On)));
    }
    if turn.first {
        push_two(
            tasks,
            Task::Run(turn.body),
            Task::Repeat(Stage::Left, turn, left),
        )
    } else {
        tasks.push(Task::Repeat(Stage::Begins, turn, left))
    }
}

// Behind the body of a loop.
fn behind_body<'a>(
    turn: Loop<'a>,
    left: u32,
    flows: &mut Stack<Flow>,
    tasks: &mut Stack<Task<'a>>,
) -> Result<(), NoMemory>
    ensures { OnOk result ((s : ScopeOf) (vs : ListOf ℤ) (log : LogOf) → Moves s (tasks_of.Repeat StageOf.Left turn.entry left) tasks.old vs flows.old log tasks.new vs flows.new log) }
{
    if let Some(flow) = left_loop(pop_or(flows, Flow::On)) {
        return flows.push(flow);
    }
    if turn.first {
        tasks.push(Task::Repeat(Stage::Begins, turn, left))?;
        step(turn.step, tasks)
    } else {
        push_two(
            tasks,
            Task::Value(turn.test),
            Task::Repeat(Stage::Tested, turn, left),
        )
    }
}

// The step of a loop, where it has one.
fn step<'a>(e: &'a Option<CoreExpr>, tasks: &mut Stack<Task<'a>>) -> Result<(), NoMemory>
    ensures { OnOk result ((s : ScopeOf) → OpensStep s (maybe_expr_of e.entry.now) tasks.old tasks.new) }
{
    match e {
        None => Ok(()),
        Some(e) => push_two(tasks, Task::Value(e), Task::Operate(Operation::Drop)),
    }
}
