//! Calls of items of elements.

ghost use Rattle.std.specs.Prelude.{◌≡◌, slice_index_or, IfOk, None, Ok};
ghost use Rattle.nesc_core.specs.View.{exprs_of};
ghost use Rattle.elab_meaning.specs.Answers.{Follows};
ghost use Rattle.elab_meaning.specs.Wired as spec;
ghost use Rattle.elab_meaning.specs.View.{found_of, item_of};
ghost use Rattle.elab_forms.specs.Parts.{call_of, parameter_missing};

use crate::forms::Told;
use elab_meaning::{Found, Item};
use elab_values::{bad_type, copied, value_found};
use nesc_core::CoreExpr;
use nesc_types::Constant;
use nm_base::{Fault, IntType, List, NoMemory, Pos};
use std::alloc::Global;

/// No argument for an element's parameter.
pub fn no_parameter(alloc: Global, at: Pos, t: Option<IntType>) -> Result<Vec<CoreExpr>, Fault>
    ensures { Follows (λ v. exprs_of v.items) result (parameter_missing at t) }
{
    match t {
        None => Ok(Vec::new(alloc)),
        Some(_) => bad_type(at),
    }
}

fn value_given(
    alloc: Global,
    body: Option<u32>,
    x: Option<Constant>,
) -> Result<Vec<CoreExpr>, NoMemory>
    ensures { IfOk result (λ v. exprs_of v.items ≡ spec.value_given body x) }
{
    let mut given = Vec::new(alloc);
    if body.is_some() {
        if let Some((t, n)) = x {
            given.push(CoreExpr::Const(t, n))?;
        }
    }
    Ok(given)
}

#[tactic(auto, using(crate::proofs::Joins::joins))]
fn joined(first: Vec<CoreExpr>, rest: Vec<CoreExpr>) -> Result<Vec<CoreExpr>, NoMemory>
    ensures { IfOk result (λ v. exprs_of v.items ≡ spec.join_exprs (exprs_of first.items) (exprs_of rest.items)) }
{
    let mut all = first;
    let mut rest = rest;
    all.append(&mut rest)?;
    Ok(all)
}

fn value_of(values: &[Option<Constant>], k: u32) -> Option<Constant>
    ensures { result ≡ slice_index_or values.now k None }
{
    match values.get(k as usize) {
        None => None,
        Some(x) => *x,
    }
}

/// A call of the body that is reached: the value that its parameter gets, then the argument of the element's parameter,
/// then the others.
pub fn called_item(
    alloc: Global,
    told: &Told,
    at: Pos,
    number: u32,
    item: &Item,
    body: u32,
    ps: Vec<CoreExpr>,
    es: Vec<CoreExpr>,
) -> Result<Found, Fault>
    ensures { Follows found_of result (Ok (call_of told.now.values at (number, item_of item.now) body (exprs_of ps.items) (exprs_of es.items))) }
{
    let given = value_given(alloc, item.body, value_of(told.values.as_slice(), number))?;
    let all = joined(joined(given, ps)?, es)?;
    let ty = copied(alloc, &item.result)?;
    Ok(value_found(CoreExpr::Call(body, List::new(all), at), ty))
}
