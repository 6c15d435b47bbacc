//! The constants in the brackets of wires.

ghost use Rattle.std.specs.Prelude.{◌≡◌, Some, IfOk};
ghost use Rattle.body_meaning.specs.View.{maybe_of};
ghost use Rattle.elab_meaning.specs.View.{state_of};
ghost use Rattle.nesc_tree.specs.Plain.{some_expr};
ghost use Rattle.nesc_tree.specs.View.{expr_of};
ghost use Rattle.wire_facts.specs.Seen as spec;
ghost use Rattle.wire_elements.specs.View.{early_env};
ghost use Rattle.wire_told.specs.Cuts.{state_when};
ghost use Rattle.wire_told.specs.View.{both_of};

use crate::faults::unlinked_as;
use crate::told::constant_told;
use elab_meaning::Work;
use nesc_tree::Expr;
use nesc_types::pos_of;
use nm_base::NoMemory;
use std::alloc::Global;
use wire_elements::Early;
use wire_pairs::{Bracket, Unlinked, is_before};

/// The two brackets of a wire, and whether what stands behind them is looked at.
#[derive(Clone, Copy)]
pub struct Both {
    pub first: Option<Bracket>,
    pub second: Option<Bracket>,
    pub goes_on: bool,
}

// The constant in a bracket, and whether what stands behind it is looked at.
#[tactic(auto, using(crate::proofs::Said::bracket_refused))]
fn bracket_of(
    alloc: Global,
    early: &Early,
    work: &mut Work,
    e: &Expr,
) -> Result<(Bracket, bool), NoMemory>
    ensures { IfOk result (λ x. spec.bracketed (early_env early.now) (some_expr (expr_of e.now)) (state_of work.old) ≡ (Some x.0, state_when x.1 (state_of work.new))) }
{
    let at = pos_of(e);
    match constant_told(alloc, early, work, e) {
        Ok(found) => {
            let value = Ok(found.1);
            Ok((Bracket { at, value }, true))
        }
        Err(fault) => {
            let value = Err(unlinked_as(Unlinked::NotConstant(at), fault)?);
            Ok((Bracket { at, value }, false))
        }
    }
}

// What stands in a bracket, and whether what stands behind it is looked at.
fn bracketed(
    alloc: Global,
    early: &Early,
    work: &mut Work,
    e: &Option<Expr>,
) -> Result<(Option<Bracket>, bool), NoMemory>
    ensures { IfOk result (λ x. spec.bracketed (early_env early.now) (maybe_of e.now) (state_of work.old) ≡ (x.0, state_when x.1 (state_of work.new))) }
{
    match e {
        None => Ok((None, true)),
        Some(e) => {
            let (bracket, goes_on) = bracket_of(alloc, early, work, e)?;
            Ok((Some(bracket), goes_on))
        }
    }
}

// A bracket that is not looked at.
fn unlooked(e: &Option<Expr>) -> Option<Bracket>
    ensures { result ≡ spec.unlooked (maybe_of e.now) }
{
    match e {
        None => None,
        Some(e) => {
            let at = pos_of(e);
            let value = Err(Unlinked::NotConstant(at));
            Some(Bracket { at, value })
        }
    }
}

// The second bracket, which is looked at where the first is not refused.
fn second_bracketed(
    alloc: Global,
    early: &Early,
    work: &mut Work,
    second: &Option<Expr>,
    goes_on: bool,
) -> Result<(Option<Bracket>, bool), NoMemory>
    ensures { IfOk result (λ x. spec.second_bracketed (early_env early.now) (maybe_of second.now) (state_when goes_on (state_of work.old)) ≡ (x.0, state_when x.1 (state_of work.new))) }
{
    if goes_on {
        bracketed(alloc, early, work, second)
    } else {
        Ok((unlooked(second), false))
    }
}

// Two brackets in their order.
fn in_order(
    alloc: Global,
    early: &Early,
    work: &mut Work,
    first: &Option<Expr>,
    second: &Option<Expr>,
) -> Result<Both, NoMemory>
    ensures { IfOk result (λ x. spec.in_order (early_env early.now) (maybe_of first.now) (maybe_of second.now) (state_of work.old) ≡ both_of x (state_of work.new)) }
{
    let (first, goes_on) = bracketed(alloc, early, work, first)?;
    let (second, goes_on) = second_bracketed(alloc, early, work, second, goes_on)?;
    Ok(Both {
        first,
        second,
        goes_on,
    })
}

fn begins_before(a: &Option<Expr>, b: &Option<Expr>) -> bool
    ensures { result ≡ spec.begins_before (maybe_of a.now) (maybe_of b.now) }
{
    match (a, b) {
        (Some(a), Some(b)) => is_before(pos_of(a), pos_of(b)),
        _ => false,
    }
}

/// The brackets of a wire from one end to another. The one that begins first in the text is looked at first; the other one has no
/// value where the first is refused.
pub fn both_bracketed(
    alloc: Global,
    early: &Early,
    work: &mut Work,
    from: &Option<Expr>,
    to: &Option<Expr>,
) -> Result<Both, NoMemory>
    ensures { IfOk result (λ x. spec.both_bracketed (early_env early.now) (maybe_of from.now) (maybe_of to.now) (state_of work.old) ≡ both_of x (state_of work.new)) }
{
    if begins_before(to, from) {
        let both = in_order(alloc, early, work, to, from)?;
        Ok(Both {
            first: both.second,
            second: both.first,
            goes_on: both.goes_on,
        })
    } else {
        in_order(alloc, early, work, from, to)
    }
}
