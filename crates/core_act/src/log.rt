//! What was done so far, and the answers that are left.

ghost use Rattle.std.specs.Prelude.{◌≡◌, ℕ, IfOk, OnOk, true};
ghost use Rattle.core_act.specs.Told.{Comes, all_actions};
ghost use Rattle.core_meaning.specs.Work.{Locals, or_fault};
ghost use Rattle.nm_base.specs.Behaviour.{Behaviour, Does, Asks, Faults, Cut};

use nm_base::{Action, NoMemory};

/// What was done so far, and the answers that are left. Where it is over, nothing more is done.
#[derive(Drop)]
pub(crate) struct Log<'a> {
    pub(crate) did: Vec<Action>,
    pub(crate) left: &'a [u16],
    pub(crate) over: bool,
}

/// An action without an answer.
pub(crate) fn perform(log: &mut Log, action: Action) -> Result<(), NoMemory>
    ensures { OnOk result ((b : Behaviour) → all_actions log.old (Does action b) ≡ all_actions log.new b) }
{
    if !log.over {
        log.did.push(action)?;
    }
    Ok(())
}

/// An action that the next answer answers. Without one it is the last.
pub(crate) fn ask(log: &mut Log, action: Action) -> Result<u16, NoMemory>
    ensures { IfOk result (λ x. (b : ℕ → Behaviour) → all_actions log.old (Asks action b) ≡ all_actions log.new (b x)) }
{
    if log.over {
        return Ok(0);
    }
    log.did.push(action)?;
    match log.left {
        [] => {
            log.over = true;
            Ok(0)
        }
        [answer, rest @ ..] => {
            log.left = rest;
            Ok(*answer)
        }
    }
}

/// The last action.
pub(crate) fn fail(log: &mut Log, code: u8) -> Result<(), NoMemory>
    ensures { OnOk result ((b : Behaviour) → all_actions log.old (Faults code) ≡ all_actions log.new b) }
{
    if !log.over {
        log.did.push(Action::Fault(code))?;
        log.over = true;
    }
    Ok(())
}

/// What an operator gives, or the last action where it gives nothing.
pub(crate) fn or_fail(log: &mut Log, code: u8, given: Option<i64>) -> Result<i64, NoMemory>
    ensures { IfOk result (λ v. (locals : Locals) → Comes (or_fault code given) log.old locals v log.new locals) }
{
    match given {
        Some(v) => Ok(v),
        None => {
            fail(log, code)?;
            Ok(0)
        }
    }
}

/// Where a loop or a call may go no further, nothing more is done.
pub(crate) fn cut(log: &mut Log)
    ensures { (b : Behaviour) → all_actions log.old Cut ≡ all_actions log.new b }
{
    log.over = true;
}
