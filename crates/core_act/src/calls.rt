//! Calls: their arguments, the way into a body and the way back.

ghost use Rattle.core_act.specs.Moves.{Calls, CallsBody, Goes, Hands, IsReady, IsSafe, Moves};
ghost use Rattle.core_act.specs.Evaluable.{IsRunnable};
ghost use Rattle.core_act.specs.Scopes.{IsHeld, fill_in, program_in};
ghost use Rattle.core_act.specs.Stacks.{below, top};
ghost use Rattle.core_act.specs.declared.log.Log.{Log as LogOf};
ghost use Rattle.core_act.specs.declared.scope.Scope.{Scope as ScopeOf};
ghost use Rattle.core_act.specs.declared.task.Task.TheVariants as tasks_of;
ghost use Rattle.core_meaning.specs.Flow as spec;
ghost use Rattle.core_meaning.specs.Work.{Locals};
ghost use Rattle.core_meaning.specs.declared.flow.Flow.{Flow as FlowOf};
ghost use Rattle.core_meaning.specs.declared.flow.Flow.TheVariants.{On};
ghost use Rattle.nesc_core.specs.View.{body_of};
ghost use Rattle.nm_base.specs.Behaviour.{Behaviour};
ghost use Rattle.std.specs.Prelude.{◌≡◌, ◌<◌, ◌^◌, [], ◌∷◌, List as ListOf, OnOk};

use crate::access::Local;
use crate::flow::result;
use crate::locals::{fill, holding};
use crate::log::{cut, perform};
use crate::machine::Machine;
use crate::scope::Scope;
use crate::stack::{Stack, pop_or, push_two};
use crate::task::{Arguments, Callee, Caller, Operation, Task};
use core_meaning::Flow;
use nesc_core::Body;
use nm_base::{Action, NoMemory};
use std::mem;

/// Evaluates the next argument, or hands all of them over.
pub(crate) fn pass<'a>(m: &mut Machine<'a>, arguments: Arguments<'a>) -> Result<(), NoMemory>
    requires { IsReady (tasks_of.Pass arguments) m.old }
    ensures { OnOk result (Goes (tasks_of.Pass arguments.entry) m.old m.new) }
{
    match arguments.rest.split_first() {
        None => hand_over(m, arguments.to, &arguments.passed),
        Some((e, rest)) => {
            let others = Arguments {
                to: arguments.to,
                passed: arguments.passed,
                rest,
            };
            push_two(&mut m.tasks, Task::Value(e), Task::Passed(others))
        }
    }
}

/// Takes the value of one argument.
pub(crate) fn take_argument<'a>(
    arguments: Arguments<'a>,
    values: &mut Stack<i64>,
    tasks: &mut Stack<Task<'a>>,
) -> Result<(), NoMemory>
    ensures { OnOk result ((s : ScopeOf) (fs : ListOf FlowOf) (log : LogOf) → Moves s (tasks_of.Passed arguments.entry) tasks.old values.old fs log tasks.new values.new fs log) }
{
    let mut passed = arguments.passed;
    passed.push(pop_or(values, 0))?;
    tasks.push(Task::Pass(Arguments {
        to: arguments.to,
        passed,
        rest: arguments.rest,
    }))
}

// A body is called with these arguments, or they become locals.
fn hand_over(m: &mut Machine<'_>, to: Callee, passed: &[i64]) -> Result<(), NoMemory>
    requires { IsSafe m.old }
    ensures { OnOk result (Hands to passed.now m.old m.new) }
{
    match to {
        Callee::Here(first, count) => fill(
            &m.scope,
            first as usize,
            count as usize,
            passed,
            &mut m.locals,
        ),
        Callee::Body(f) => {
            perform(&mut m.log, Action::Tick)?;
            m.tasks
                .push(Task::Operate(Operation::Perform(Action::Tick)))?;
            enter(m, f, passed)
        }
    }
}

/// Calls a body, unless calls are too deep.
pub(crate) fn enter(m: &mut Machine<'_>, f: u32, passed: &[i64]) -> Result<(), NoMemory>
    requires { IsSafe m.old }
    ensures { OnOk result (Calls f passed.now m.old m.new) }
{
    if m.scope.depth == 0 {
        cut(&mut m.log);
        return Ok(());
    }
    let program = m.scope.program;
    match program.bodies.as_slice().get(f as usize) {
        None => {
            cut(&mut m.log);
            Ok(())
        }
        Some(body) => enter_body(m, body, passed),
    }
}

fn enter_body<'a>(m: &mut Machine<'a>, body: &'a Body, passed: &[i64]) -> Result<(), NoMemory>
    requires safe { IsSafe m.old }
    requires deep { 0 < m.old.scope.depth }
    requires body { IsRunnable (program_in m.old.scope) (body_of body.now) }
    ensures { OnOk result (CallsBody (body_of body.entry.now) passed.now m.old m.new) }
{
    let outer = m.scope;
    let inner = Scope {
        alloc: outer.alloc,
        program: outer.program,
        types: body.locals.as_slice(),
        depth: outer.depth - 1,
        turns: outer.turns,
    };
    let locals = holding(outer.alloc, &outer.program.structs, inner.types, passed)?;
    let caller = Caller {
        scope: outer,
        locals: mem::replace(&mut m.locals, locals),
    };
    m.scope = inner;
    push_two(&mut m.tasks, Task::Run(&body.code), Task::Back(caller))
}

/// Goes back to the caller with the result of a body.
pub(crate) fn go_back<'a>(m: &mut Machine<'a>, caller: Caller<'a>) -> Result<(), NoMemory>
    requires { IsReady (tasks_of.Back caller) m.old }
    ensures { OnOk result (Goes (tasks_of.Back caller.entry) m.old m.new) }
{
    let flow = pop_or(&mut m.flows, Flow::On);
    m.scope = caller.scope;
    m.locals = caller.locals;
    m.values.push(result(flow))
}

/// The result of an inlined call goes to this local.
pub(crate) fn keep(
    scope: &Scope<'_>,
    place: usize,
    flows: &mut Stack<Flow>,
    locals: &mut [Local],
) -> Result<(), NoMemory>
    requires held { IsHeld scope.now }
    requires low { place < 2 ^ 33 }
    ensures { OnOk result ((after : ListOf FlowOf → Locals → Behaviour) → fill_in scope.now place 1 (spec.result (top On flows.old) ∷ []) (λ u. after (On ∷ below flows.old)) locals.old ≡ after flows.new locals.new) }
{
    let flow = pop_or(flows, Flow::On);
    fill(scope, place, 1, &[result(flow)], locals)?;
    flows.push(Flow::On)
}
