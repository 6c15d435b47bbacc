//! Attempts on two works in equal states, of which the first is kept as it was behind a refusal.

ghost use Rattle.std.specs.Prelude.{◌≡◌, [], IfOk, Ok, OnOk, is_some, true};
ghost use Rattle.nesc_tree.specs.View.{base_of, expr_of};
ghost use Rattle.elab_meaning.specs.Answers.{Gives};
ghost use Rattle.elab_meaning.specs.View.{based_of, state_of};
ghost use Rattle.elab_meaning.specs.Wired as wired;
ghost use Rattle.nesc_unwired.specs.Calls.{constant_of};
ghost use Rattle.wire_elements.specs.View.{early_env};
ghost use Rattle.elab_attempts.specs.Given.{Says, Tried};
ghost use Rattle.elab_attempts.specs.Parts.{in_force, work_of};
ghost use Rattle.elab_attempts.specs.View.{attempt_of};

use crate::attempts::{Attempt, hide_declared, run_or_refuse};
use crate::cuts::cut_to;
use crate::refusals::unless_refused;
use elab_exprs::{base, constant};
use elab_meaning::{Based, Work};
use nesc_tree::{Base, Expr};
use nesc_types::Constant;
use nm_base::{Fault, NoMemory, Pos};
use std::alloc::Global;
use wire_elements::Early;

// ---- declarations

fn tried(
    alloc: Global,
    early: &Early,
    kept: &mut Work,
    trial: &mut Work,
    attempt: &Attempt,
) -> Result<Option<()>, NoMemory>
    requires { state_of trial.old ≡ state_of kept.old }
    ensures { IfOk result (λ found. Tried (λ _. tt) found (state_of kept.old) (state_of kept.new) (state_of trial.new) (work_of (early_env early.now) [] (attempt_of attempt.now) (state_of kept.old))) }
{
    match run_or_refuse(alloc, early, trial, attempt)? {
        None => Ok(None),
        Some(()) => run_or_refuse(alloc, early, kept, attempt),
    }
}

/// What is declared comes in force, whatever is refused; the answer is whether both works are in equal states again.
pub(crate) fn declare(
    alloc: Global,
    early: &Early,
    kept: &mut Work,
    trial: &mut Work,
    attempt: &Attempt,
) -> Result<bool, NoMemory>
    requires { state_of trial.old ≡ state_of kept.old }
    ensures force { OnOk result (in_force (early_env early.now) (attempt_of attempt.now) (state_of kept.old) ≡ Ok (tt, state_of kept.new)) }
    ensures same { IfOk result (λ same. same ≡ true → state_of trial.new ≡ state_of kept.new) }
{
    match tried(alloc, early, kept, trial, attempt)? {
        Some(()) => Ok(true),
        None => {
            hide_declared(kept, attempt)?;
            Ok(false)
        }
    }
}

// ---- types before stars

fn base_early(
    alloc: Global,
    early: &Early,
    work: &mut Work,
    b: &Base,
    at: Pos,
) -> Result<Based, Fault>
    ensures { Gives based_of result (state_of work.new) (wired.base_of (early_env early.now) [] at (base_of b.now) (state_of work.old)) }
{
    base(alloc, &early.told, work, b, at)
}

fn base_or_refuse(
    alloc: Global,
    early: &Early,
    work: &mut Work,
    b: &Base,
    at: Pos,
) -> Result<Option<Based>, NoMemory>
    ensures { IfOk result (λ found. Says based_of found (state_of work.new) (wired.base_of (early_env early.now) [] at (base_of b.now) (state_of work.old))) }
{
    unless_refused(base_early(alloc, early, work, b, at))
}

/// The type before stars, where it is not refused; then both works are in equal states again.
pub(crate) fn based(
    alloc: Global,
    early: &Early,
    kept: &mut Work,
    trial: &mut Work,
    b: &Base,
    at: Pos,
) -> Result<Option<Based>, NoMemory>
    requires { state_of trial.old ≡ state_of kept.old }
    ensures { IfOk result (λ found. Tried based_of found (state_of kept.old) (state_of kept.new) (state_of trial.new) (wired.base_of (early_env early.now) [] at (base_of b.now) (state_of kept.old))) }
{
    match base_or_refuse(alloc, early, trial, b, at)? {
        None => Ok(None),
        Some(_) => base_or_refuse(alloc, early, kept, b, at),
    }
}

// ---- constants

fn constant_early(
    alloc: Global,
    early: &Early,
    work: &mut Work,
    e: &Expr,
) -> Result<Constant, Fault>
    ensures { Gives (λ x. x) result (state_of work.new) (wired.whole_constant (early_env early.now) [] (expr_of e.now) (state_of work.old)) }
{
    constant(alloc, &early.told, work, e)
}

fn constant_or_refuse(
    alloc: Global,
    early: &Early,
    work: &mut Work,
    e: &Expr,
) -> Result<Option<Constant>, NoMemory>
    ensures { IfOk result (λ found. Says (λ x. x) found (state_of work.new) (wired.whole_constant (early_env early.now) [] (expr_of e.now) (state_of work.old))) }
{
    unless_refused(constant_early(alloc, early, work, e))
}

/// A constant, where it is not refused; then both works are in equal states again.
pub(crate) fn constant_found(
    alloc: Global,
    early: &Early,
    kept: &Work,
    trial: &mut Work,
    e: &Expr,
) -> Result<Option<Constant>, NoMemory>
    requires { state_of trial.old ≡ state_of kept.now }
    ensures value { IfOk result (λ c. c ≡ constant_of (wired.whole_constant (early_env early.now) [] (expr_of e.now) (state_of kept.now))) }
    ensures same { IfOk result (λ c. is_some c ≡ true → state_of trial.new ≡ state_of kept.now) }
{
    let found = constant_or_refuse(alloc, early, trial, e)?;
    cut_to(kept, trial);
    Ok(found)
}
