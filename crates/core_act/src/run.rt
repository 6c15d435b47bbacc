//! What a machine does, one task after the other.

ghost use Rattle.core_act.specs.Moves.{Goes, IsReady, IsSafe, all_of};
ghost use Rattle.core_act.specs.Told.{done_by};
ghost use Rattle.std.specs.Prelude.{◌≡◌, OnOk};

use crate::calls::{go_back, keep, pass, take_argument};
use crate::choose::{choose_case, choose_statement, choose_value, leave, next_statement, second};
use crate::locals::fill;
use crate::machine::Machine;
use crate::open::{open_place, open_statement, open_value};
use crate::operate::operate;
use crate::reach::{access, point};
use crate::task::Task;
use crate::turns::repeat;
use nm_base::NoMemory;

/// Does all that is left.
pub(crate) fn finish(m: &mut Machine<'_>) -> Result<(), NoMemory>
    requires { IsSafe m.old }
    ensures { OnOk result (done_by m.new.log ≡ all_of m.old) }
{
    while !m.log.over {
        match m.tasks.pop() {
            None => return Ok(()),
            Some(task) => perform_task(m, task)?,
        }
    }
    Ok(())
}

fn perform_task<'a>(m: &mut Machine<'a>, task: Task<'a>) -> Result<(), NoMemory>
    requires { IsReady task m.old }
    ensures { OnOk result (Goes task.entry m.old m.new) }
{
    match task {
        Task::Value(e) => open_value(m.scope.alloc, e, &mut m.tasks),
        Task::Second(operator, b) => second(operator, b, &mut m.values, &mut m.tasks),
        Task::Cond(a, b) => choose_value(a, b, &mut m.values, &mut m.tasks),
        Task::Find(place) => open_place(&m.scope, place, &mut m.tasks),
        Task::At(w) => m.places.push(w),
        Task::Access(what, place) => access(
            &m.scope,
            what,
            place,
            &mut m.values,
            &mut m.places,
            &mut m.locals,
            &mut m.log,
        ),
        Task::Point(t) => point(&m.scope, t, &mut m.values, &mut m.places, &mut m.log),
        Task::Operate(operation) => operate(operation, &mut m.values, &mut m.log),
        Task::Run(s) => open_statement(&m.scope, s, &mut m.tasks),
        Task::If(a, b) => choose_statement(a, b, &mut m.values, &mut m.tasks),
        Task::Switch(cases, list) => choose_case(cases, list, &mut m.values, &mut m.tasks),
        Task::Repeat(stage, turn, left) => repeat(
            stage,
            turn,
            left,
            &mut m.values,
            &mut m.flows,
            &mut m.tasks,
            &mut m.log,
        ),
        Task::Keep(place) => keep(&m.scope, place, &mut m.flows, &mut m.locals),
        Task::Rest(list) => next_statement(list, &mut m.flows, &mut m.tasks),
        Task::Leave(way) => leave(way, &mut m.values, &mut m.flows),
        Task::Clear(x) => fill(&m.scope, x as usize, 1, &[], &mut m.locals),
        Task::Pass(arguments) => pass(m, arguments),
        Task::Passed(arguments) => take_argument(arguments, &mut m.values, &mut m.tasks),
        Task::Back(caller) => go_back(m, caller),
    }
}
