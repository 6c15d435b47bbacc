//! What comes next where a value or a way out of a statement decides it.

ghost use Rattle.core_act.specs.Moves.{Moves};
ghost use Rattle.core_act.specs.Remaining.{left_by};
ghost use Rattle.core_act.specs.declared.log.Log.{Log as LogOf};
ghost use Rattle.core_act.specs.declared.scope.Scope.{Scope as ScopeOf};
ghost use Rattle.core_act.specs.declared.task.Task.TheVariants as tasks_of;
ghost use Rattle.core_meaning.specs.declared.flow.Flow.{Flow as FlowOf};
ghost use Rattle.nm_base.specs.Behaviour.{Behaviour};
ghost use Rattle.std.specs.Prelude.{◌≡◌, List as ListOf, ℤ, OnOk};

use crate::cases::{start_of, statements_from};
use crate::flow::{goes_on, out_of_switch};
use crate::stack::{Stack, pop_or, push_two};
use crate::task::{Logical, Operation, Task, Way};
use core_meaning::Flow;
use core_numbers::is_zero;
use nesc_core::{CoreExpr, CoreStmt};
use nm_base::{List, NoMemory};

/// The second operand of a logical operator, unless this value of the first decides.
pub(crate) fn second<'a>(
    operator: Logical,
    b: &'a CoreExpr,
    values: &mut Stack<i64>,
    tasks: &mut Stack<Task<'a>>,
) -> Result<(), NoMemory>
    ensures { OnOk result ((s : ScopeOf) (fs : ListOf FlowOf) (log : LogOf) → Moves s (tasks_of.Second operator b.entry) tasks.old values.old fs log tasks.new values.new fs log) }
{
    let is_zero = is_zero(pop_or(values, 0));
    match operator {
        Logical::And => {
            if is_zero {
                return tasks.push(Task::Operate(Operation::Give(0)));
            }
        }
        Logical::Or => {
            if !is_zero {
                return tasks.push(Task::Operate(Operation::Give(1)));
            }
        }
    }
    push_two(tasks, Task::Value(b), Task::Operate(Operation::Truth))
}

/// One of two expressions.
pub(crate) fn choose_value<'a>(
    a: &'a CoreExpr,
    b: &'a CoreExpr,
    values: &mut Stack<i64>,
    tasks: &mut Stack<Task<'a>>,
) -> Result<(), NoMemory>
    ensures { OnOk result ((s : ScopeOf) (fs : ListOf FlowOf) (log : LogOf) → Moves s (tasks_of.Cond a.entry b.entry) tasks.old values.old fs log tasks.new values.new fs log) }
{
    if is_zero(pop_or(values, 0)) {
        tasks.push(Task::Value(b))
    } else {
        tasks.push(Task::Value(a))
    }
}

/// One of two statements.
pub(crate) fn choose_statement<'a>(
    a: &'a Box<CoreStmt>,
    b: &'a Box<CoreStmt>,
    values: &mut Stack<i64>,
    tasks: &mut Stack<Task<'a>>,
) -> Result<(), NoMemory>
    ensures { OnOk result ((s : ScopeOf) (fs : ListOf FlowOf) (log : LogOf) → Moves s (tasks_of.If a.entry b.entry) tasks.old values.old fs log tasks.new values.new fs log) }
{
    if is_zero(pop_or(values, 0)) {
        tasks.push(Task::Run(b))
    } else {
        tasks.push(Task::Run(a))
    }
}

/// The statements of a switch from the case of the value on.
pub(crate) fn choose_case<'a>(
    cases: &'a List<(Option<i64>, u32)>,
    list: &'a List<CoreStmt>,
    values: &mut Stack<i64>,
    tasks: &mut Stack<Task<'a>>,
) -> Result<(), NoMemory>
    ensures { OnOk result ((s : ScopeOf) (fs : ListOf FlowOf) (log : LogOf) → Moves s (tasks_of.Switch cases.entry list.entry) tasks.old values.old fs log tasks.new values.new fs log) }
{
    match start_of(cases.as_slice(), pop_or(values, 0)) {
        None => tasks.push(Task::Leave(Way::By(Flow::On))),
        Some(k) => push_two(
            tasks,
            Task::Leave(Way::By(Flow::On)),
            Task::Rest(statements_from(list, k as usize)),
        ),
    }
}

/// The next statement of a list, if the one before was left to go on.
pub(crate) fn next_statement<'a>(
    list: &'a [CoreStmt],
    flows: &mut Stack<Flow>,
    tasks: &mut Stack<Task<'a>>,
) -> Result<(), NoMemory>
    ensures { OnOk result ((s : ScopeOf) (vs : ListOf ℤ) (log : LogOf) → Moves s (tasks_of.Rest list.entry) tasks.old vs flows.old log tasks.new vs flows.new log) }
{
    let flow = pop_or(flows, Flow::On);
    if !goes_on(flow) {
        return flows.push(flow);
    }
    match list.split_first() {
        None => flows.push(Flow::On),
        Some((s, rest)) => push_two(tasks, Task::Run(s), Task::Rest(rest)),
    }
}

/// How a statement is left.
pub(crate) fn leave(
    way: Way,
    values: &mut Stack<i64>,
    flows: &mut Stack<Flow>,
) -> Result<(), NoMemory>
    ensures { OnOk result ((after : ListOf ℤ → ListOf FlowOf → Behaviour) → left_by way after values.old flows.old ≡ after values.new flows.new) }
{
    match way {
        Way::By(flow) => flows.push(flow),
        Way::Gives => flows.push(Flow::Gave(pop_or(values, 0))),
        Way::OutOfSwitch => {
            let flow = pop_or(flows, Flow::On);
            flows.push(out_of_switch(flow))
        }
        Way::OutOfCall => {
            pop_or(flows, Flow::On);
            flows.push(Flow::On)
        }
    }
}
