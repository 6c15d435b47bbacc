//! Expressions, constants and types as the wired program has them.

ghost use Rattle.std.specs.Prelude.{◌≡◌, true};
ghost use Rattle.nesc_core.specs.View.{type_of as core_type_of};
ghost use Rattle.nesc_tree.specs.View.{base_of, expr_of, exprs_of, spec_of};
ghost use Rattle.elab_meaning.specs.Answers.{Gives};
ghost use Rattle.elab_meaning.specs.Wired as spec;
ghost use Rattle.elab_meaning.specs.View.{based_of, env_of, found_of, state_of, typed_of};

use crate::{constants, types, walk};
use elab_forms::Told;
use elab_meaning::{Based, Found, Typed, Work};
use nesc_core::CoreType;
use nesc_tree::{Base, Expr, TypeSpec};
use nesc_types::{Constant, pos_of};
use nm_base::{Fault, List, Pos};
use std::alloc::Global;

/// What an expression is: a place, a value or a struct assignment, with its type.
#[tactic(auto, unfolding(crate::specs::Walk::IsFound, crate::specs::Walk::found_at))]
pub fn found(alloc: Global, told: &Told, work: &mut Work, e: &Expr) -> Result<Found, Fault>
    ensures { Gives found_of result (state_of work.new) (spec.found (env_of told.now.env) told.now.values (expr_of e.now) (state_of work.old)) }
{
    walk::found(alloc, told, work, e)
}

/// An expression as a value.
#[tactic(auto, unfolding(crate::specs::Walk::IsValue, crate::specs::Walk::value_at))]
pub fn value(alloc: Global, told: &Told, work: &mut Work, e: &Expr) -> Result<Typed, Fault>
    ensures { Gives typed_of result (state_of work.new) (spec.value (env_of told.now.env) told.now.values (expr_of e.now) (state_of work.old)) }
{
    walk::value(alloc, told, work, e)
}

/// The type and the number of a whole constant.
#[tactic(auto, unfolding(crate::specs::Walk::IsConstant, crate::specs::Walk::constant_at))]
pub fn constant(alloc: Global, told: &Told, work: &mut Work, e: &Expr) -> Result<Constant, Fault>
    ensures { Gives (λ x. x) result (state_of work.new) (spec.whole_constant (env_of told.now.env) told.now.values (expr_of e.now) (state_of work.old)) }
{
    constants::constant_in(alloc, told, work, e, pos_of(e), true)
}

/// The type that is written, whose declaration stands at a place.
#[tactic(auto, unfolding(crate::specs::Walk::IsType, crate::specs::Walk::type_at))]
pub fn type_of(
    alloc: Global,
    told: &Told,
    work: &mut Work,
    t: &TypeSpec,
    at: Pos,
) -> Result<CoreType, Fault>
    ensures { Gives core_type_of result (state_of work.new) (spec.type_of (env_of told.now.env) told.now.values at (spec_of t.now) (state_of work.old)) }
{
    types::type_of(alloc, told, work, t, at)
}

/// The type before its stars, as a declaration that stands at a place begins with it.
#[tactic(auto, unfolding(crate::specs::Walk::IsBased, crate::specs::Walk::base_at))]
pub fn base(alloc: Global, told: &Told, work: &mut Work, b: &Base, at: Pos) -> Result<Based, Fault>
    ensures { Gives based_of result (state_of work.new) (spec.base_of (env_of told.now.env) told.now.values at (base_of b.now) (state_of work.old)) }
{
    types::base(alloc, told, work, b, at)
}

/// The lengths of arrays, from left to right.
#[tactic(auto, unfolding(crate::specs::Walk::AreLengths, crate::specs::Walk::lengths_at))]
pub fn lengths(
    alloc: Global,
    told: &Told,
    work: &mut Work,
    dims: &List<Expr>,
) -> Result<Vec<u32>, Fault>
    ensures { Gives (λ v. v.items) result (state_of work.new) (spec.lengths (env_of told.now.env) told.now.values (exprs_of dims.now) (state_of work.old)) }
{
    types::lengths(alloc, told, work, dims)
}
