//! The actions of a body.

ghost use Rattle.core_act.specs.Actions.{actions_of};
ghost use Rattle.core_meaning.specs.Act.{root};
ghost use Rattle.nesc_core.specs.View.{program_of};
ghost use Rattle.nesc_core.specs.WellFormed.{IsWellFormed};
ghost use Rattle.nm_base.specs.Behaviour as behaviour;
ghost use Rattle.std.specs.Prelude.{◌≡◌, IfOk};

use crate::calls::enter;
use crate::log::Log;
use crate::machine::Machine;
use crate::run::finish;
use crate::scope::Scope;
use crate::stack::Stack;
use nesc_core::Program;
use nm_base::{Action, NoMemory};
use std::alloc::Global;

/// The actions that a body performs, in order, and whether it ends with them; a body that faults does not.
#[derive(Debug, Drop)]
pub struct Performance {
    pub actions: Vec<Action>,
    pub ended: bool,
}

/// The actions that a body without parameters performs, in order, when its Loads, Ins and Posts are answered by the list. They
/// end after the first of these without an answer, and before the turn of a loop that would be its turn n + 1.
pub fn act(
    alloc: Global,
    p: &Program,
    body: u32,
    answers: &[u16],
    n: u32,
) -> Result<Vec<Action>, NoMemory>
    requires { IsWellFormed (program_of p.now) }
    ensures { IfOk result (λ actions. actions.items ≡ actions_of (program_of p.now) body answers.now n) }
{
    Ok(performed(alloc, p, body, answers, n)?.actions)
}

/// The same actions, and whether the body ends with them.
pub fn performed(
    alloc: Global,
    p: &Program,
    body: u32,
    answers: &[u16],
    n: u32,
) -> Result<Performance, NoMemory>
    requires { IsWellFormed (program_of p.now) }
    ensures actions { IfOk result (λ done. done.actions.items ≡ actions_of (program_of p.now) body answers.now n) }
    ensures ended { IfOk result (λ done. done.ended ≡ (behaviour.performed (root (program_of p.now) body n) answers.now).ended) }
{
    let log = Log {
        did: Vec::new(alloc),
        left: answers,
        over: false,
    };
    let mut m = Machine {
        scope: Scope {
            alloc,
            program: p,
            types: &[],
            depth: p.bodies.as_slice().len(),
            turns: n,
        },
        tasks: Stack::new(alloc),
        values: Stack::new(alloc),
        places: Stack::new(alloc),
        flows: Stack::new(alloc),
        locals: Vec::new(alloc),
        log,
    };
    enter(&mut m, body, &[])?;
    finish(&mut m)?;
    Ok(Performance {
        actions: m.log.did,
        ended: !m.log.over,
    })
}
