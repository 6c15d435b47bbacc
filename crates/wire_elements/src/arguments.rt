//! Arguments of generic components, and what parameters mean that get them.

ghost use Rattle.std.specs.Prelude.{◌≡◌, []};
ghost use Rattle.nesc_core.specs.View.{type_of};
ghost use Rattle.nesc_tree.specs.View.{expr_of, spec_of};
ghost use Rattle.elab_meaning.specs.Answers.{Follows, Gives};
ghost use Rattle.elab_meaning.specs.View.{meaning_of, state_of};
ghost use Rattle.wire_facts.specs.Components.{arg_of, of_type, of_value};
ghost use Rattle.wire_facts.specs.Seen as spec;
ghost use Rattle.wire_elements.specs.Given.{given_of};
ghost use Rattle.wire_elements.specs.View.{early_env};

use crate::early::Early;
use elab_meaning::{Meaning, Work};
use elab_values::{bad_type, not_constant};
use nesc_core::CoreType;
use nesc_tree::{Expr, GenericArg, TypeSpec};
use nesc_types::{Constant, pos_of};
use nm_base::{Fault, IntType, Pos, wrap};
use std::alloc::Global;

/// What an argument is, where it stands.
#[derive(Drop)]
pub(crate) enum Given {
    Type(CoreType),
    Constant(Pos, Constant),
}

fn given_type(
    alloc: Global,
    early: &Early,
    work: &mut Work,
    t: &TypeSpec,
    at: Pos,
) -> Result<Given, Fault>
    ensures { Gives given_of result (state_of work.new) (spec.given (early_env early.now) at (of_type (spec_of t.now)) (state_of work.old)) }
{
    let t = early.type_of(alloc, work, t, at)?;
    Ok(Given::Type(t))
}

fn given_constant(
    alloc: Global,
    early: &Early,
    work: &mut Work,
    e: &Expr,
    at: Pos,
) -> Result<Given, Fault>
    ensures { Gives given_of result (state_of work.new) (spec.given (early_env early.now) at (of_value (expr_of e.now)) (state_of work.old)) }
{
    let x = early.constant(alloc, work, e)?;
    Ok(Given::Constant(pos_of(e), x))
}

/// What an argument is; a type is refused at this place.
pub(crate) fn given_by(
    alloc: Global,
    early: &Early,
    work: &mut Work,
    x: &GenericArg,
    at: Pos,
) -> Result<Given, Fault>
    ensures { Gives given_of result (state_of work.new) (spec.given (early_env early.now) at (arg_of x.now) (state_of work.old)) }
{
    match x {
        GenericArg::Ty(t) => given_type(alloc, early, work, t, at),
        GenericArg::Value(e) => given_constant(alloc, early, work, e, at),
    }
}

fn holds(t: IntType, x: i64) -> bool
    ensures { result ≡ spec.holds t x }
{
    wrap(t, x) == x
}

// A constant that the parameter's type holds.
fn ranged(at: Pos, t: IntType, x: i64) -> Result<Meaning, Fault>
    ensures { Follows meaning_of result (spec.ranged at t x) }
{
    if holds(t, x) {
        Ok(Meaning::Constant(t, x))
    } else {
        not_constant(at)
    }
}

fn type_meaning(line: Pos, t: Option<IntType>, u: CoreType) -> Result<Meaning, Fault>
    ensures { Follows meaning_of result (spec.meaning_given line t (spec.a_type (type_of u))) }
{
    match t {
        None => Ok(Meaning::Type(u, false)),
        Some(_) => bad_type(line),
    }
}

fn constant_meaning(line: Pos, t: Option<IntType>, at: Pos, x: Constant) -> Result<Meaning, Fault>
    ensures { Follows meaning_of result (spec.meaning_given line t (spec.a_constant at x)) }
{
    match t {
        None => bad_type(at),
        Some(t) => ranged(at, t, x.1),
    }
}

/// What a parameter means that gets the argument: a type, where it has none, or a constant of its type.
pub(crate) fn meaning_given(line: Pos, t: Option<IntType>, given: Given) -> Result<Meaning, Fault>
    ensures { Follows meaning_of result (spec.meaning_given line t (given_of given)) }
{
    match given {
        Given::Type(u) => type_meaning(line, t, u),
        Given::Constant(at, x) => constant_meaning(line, t, at, x),
    }
}
