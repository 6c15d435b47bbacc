//! The call of one target, with what it gets first and with the parameters of the item.

ghost use Rattle.std.specs.Prelude.{◌≡◌, ◌++◌, IfOk, map};
ghost use Rattle.elab_dispatch.specs.Calls as own;
ghost use Rattle.elab_facts.specs.View.{first_of};
ghost use Rattle.nesc_core.specs.Plain as core;
ghost use Rattle.nesc_core.specs.View.{expr_of, exprs_of};
ghost use Rattle.program_meaning.specs.Dispatch as spec;

use crate::calling::{Calling, own_count};
use elab_facts::{First, Target};
use elab_values::to_int;
use nesc_core::{CoreExpr, Place};
use nm_base::{IntType, List, NoMemory};
use std::alloc::Global;

/// The value of a local.
pub(crate) fn local(i: Calling, number: u32) -> CoreExpr
    ensures { expr_of result ≡ spec.read_local i.at number }
{
    CoreExpr::Read(Place::Local(number), i.at)
}

/// The call of a body.
pub(crate) fn call(i: Calling, body: u32, arguments: Vec<CoreExpr>) -> CoreExpr
    ensures { expr_of result ≡ core.call body (exprs_of arguments.items) i.at }
{
    CoreExpr::Call(body, List::new(arguments), i.at)
}

// The parameter of the call as one of this type.
fn passed(alloc: Global, i: Calling, to: IntType) -> Result<Vec<CoreExpr>, NoMemory>
    ensures { IfOk result (λ v. map expr_of v.items ≡ spec.passed i.at i.own to) }
{
    match i.own {
        None => Ok(Vec::new(alloc)),
        Some(own) => {
            let value = to_int(alloc, to, own, local(i, 0))?;
            Ok(vec![in alloc; value]?)
        }
    }
}

fn first_argument(alloc: Global, i: Calling, first: First) -> Result<Vec<CoreExpr>, NoMemory>
    ensures { IfOk result (λ v. map expr_of v.items ≡ spec.first_argument i.at i.own (first_of first)) }
{
    match first {
        First::Nothing => Ok(Vec::new(alloc)),
        First::Given(value) => Ok(vec![in alloc; CoreExpr::Const(value.0, value.1)]?),
        First::PassedOn(to) => passed(alloc, i, to),
    }
}

// The parameters of the item, behind the arguments that there are.
#[tactic(auto, using(crate::proofs::Ranges::ranges))]
fn push_others(i: Calling, arguments: &mut Vec<CoreExpr>) -> Result<(), NoMemory>
    ensures { IfOk result (λ _. map expr_of arguments.new.items ≡ map expr_of arguments.old.items ++ own.others i) }
{
    let first = own_count(i.own);
    for k in 0..i.others {
        arguments.push(local(i, first + k))?;
    }
    Ok(())
}

/// The call of a target.
pub(crate) fn target_call(alloc: Global, i: Calling, target: Target) -> Result<CoreExpr, NoMemory>
    ensures { IfOk result (λ e. expr_of e ≡ own.called i target) }
{
    let mut arguments = first_argument(alloc, i, target.first)?;
    push_others(i, &mut arguments)?;
    Ok(call(i, target.body, arguments))
}
