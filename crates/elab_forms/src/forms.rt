//! What is told to a body, and forms that have no parts.

ghost use Rattle.std.specs.Prelude.{◌≡◌, ◌&&◌, bytes_eq, map, Ok};
ghost use Rattle.nesc_core.specs.Plain as core;
ghost use Rattle.nesc_core.specs.View.{type_of};
ghost use Rattle.core_meaning.specs.Numbers as numbers;
ghost use Rattle.nesc_types.specs.Constant as constants;
ghost use Rattle.nesc_types.specs.Rule.{or_refuse};
ghost use Rattle.nm_base.specs.declared.refusal.Refusal.TheVariants.{BadType};
ghost use Rattle.elab_meaning.specs.Answers.{Follows, Gives};
ghost use Rattle.elab_meaning.specs.Convert as convert;
ghost use Rattle.elab_meaning.specs.Elab.{by};
ghost use Rattle.elab_meaning.specs.Operators as operators;
ghost use Rattle.elab_meaning.specs.Scope as scope;
ghost use Rattle.elab_meaning.specs.Wired as spec;
ghost use Rattle.elab_meaning.specs.View.{based_of, found_of, state_of, struct_of, unique_of, unique_count_of};

use core_numbers::is_zero;
use elab_meaning::{Based, Env, Found, Struct, Work};
use elab_names::{const_of, count_of, counted, unique_at};
use elab_types::{arrays, pointers, with_field_named};
use elab_values::{bad_type, copied, not_constant, sized, value_found};
use nesc_core::{CoreExpr, CoreType};
use nesc_tree::{InOp, PreOp};
use nesc_types::Constant;
use nesc_types::operators::{goes_on, is_true};
use nm_base::{Fault, List, Name, Pos};
use std::alloc::Global;

/// What is told to the bodies of an instance, and for each item the value that the parameter of its one target gets.
#[derive(Drop)]
pub struct Told {
    pub env: Env,
    pub values: List<Option<Constant>>,
}

// ---- values without parts

/// `NULL`.
pub fn null(alloc: Global) -> Result<Found, Fault>
    ensures { Follows found_of result (Ok (convert.value_found core.null convert.null_type)) }
{
    let ty = CoreType::Pointer(Box::new(alloc, CoreType::Void)?);
    Ok(value_found(CoreExpr::Null, ty))
}

/// The number of a use of `unique`.
pub fn unique_number(told: &Told, at: Pos) -> Result<Constant, Fault>
    ensures { Follows (λ x. x) result (operators.counted at (scope.unique_at (map unique_of told.now.env.uniques) at)) }
{
    counted(at, unique_at(told.env.uniques.as_slice(), at))
}

/// How often `unique` is used with a text.
pub fn unique_count(told: &Told, at: Pos, text: &Name) -> Result<Constant, Fault>
    ensures { Follows (λ x. x) result (operators.counted at (scope.count_of (map unique_count_of told.now.env.counts) text.now)) }
{
    counted(at, count_of(told.env.counts.as_slice(), text))
}

/// A use of `unique` as a value.
pub fn unique_found(told: &Told, work: &Work, at: Pos) -> Result<Found, Fault>
    ensures { Gives found_of result (state_of work.now) (spec.as_found (by (operators.counted at (scope.unique_at (map unique_of told.now.env.uniques) at))) (state_of work.now)) }
{
    let x = unique_number(told, at)?;
    Ok(const_of(x))
}

/// A use of `uniqueCount` as a value.
pub fn uniques_found(told: &Told, work: &Work, at: Pos, text: &Name) -> Result<Found, Fault>
    ensures { Gives found_of result (state_of work.now) (spec.as_found (by (operators.counted at (scope.count_of (map unique_count_of told.now.env.counts) text.now))) (state_of work.now)) }
{
    let x = unique_count(told, at, text)?;
    Ok(const_of(x))
}

// ---- constants

/// A literal that some type holds.
pub fn fits(at: Pos, x: Option<Constant>) -> Result<Constant, Fault>
    ensures { Follows (λ x. x) result (or_refuse (BadType at) x) }
{
    match x {
        None => bad_type(at),
        Some(x) => Ok(x),
    }
}

/// The operators that stand before a constant.
pub fn on_constants(whole: Pos, o: PreOp) -> Result<(), Fault>
    ensures { Follows (λ _. tt) result (spec.on_constants whole o) }
{
    match o {
        PreOp::Plus | PreOp::Neg | PreOp::Not | PreOp::IsZero => Ok(()),
        PreOp::Inc | PreOp::Dec | PreOp::Addr | PreOp::Deref => not_constant(whole),
    }
}

/// Whether the right operand is evaluated.
pub fn goes_on_evaluated(evaluated: bool, o: InOp, x: Constant) -> bool
    ensures { result ≡ evaluated && constants.goes_on o x }
{
    evaluated && goes_on(o, x)
}

/// Whether the second operand of `?:` is evaluated.
pub fn second_evaluated(evaluated: bool, x: Constant) -> bool
    ensures { result ≡ evaluated && constants.is_true x }
{
    evaluated && is_true(x)
}

/// Whether the third operand of `?:` is evaluated.
pub fn third_evaluated(evaluated: bool, x: Constant) -> bool
    ensures { result ≡ evaluated && numbers.is_zero x.1 }
{
    evaluated && is_zero(x.1)
}

/// `sizeof` of an expression.
pub fn sized_found(structs: &[Struct], at: Pos, f: Found) -> Result<Constant, Fault>
    ensures { Follows (λ x. x) result (operators.sized (map struct_of structs.now) at (convert.type_found (found_of f))) }
{
    match f {
        Found::Place(_, _, t, _) => sized(structs, at, &t),
        Found::Value(v) => sized(structs, at, &v.ty),
        Found::Copy(_, _, k) => sized(structs, at, &CoreType::Struct(k)),
    }
}

// ---- types

/// The base and its stars.
pub fn starred(alloc: Global, work: &Work, at: Pos, stars: u8, b: &Based) -> Result<CoreType, Fault>
    ensures { Follows type_of result (operators.pointers (map struct_of work.now.structs.items) at stars (based_of b.now).ty) }
{
    let base = copied(alloc, &b.ty)?;
    pointers(alloc, work.structs.as_slice(), at, stars, base)
}

/// An array with these lengths.
pub fn resolved(
    alloc: Global,
    work: &Work,
    at: Pos,
    t: CoreType,
    lengths: Vec<u32>,
) -> Result<CoreType, Fault>
    ensures { Follows type_of result (operators.arrays (map struct_of work.now.structs.items) at (type_of t) lengths.items) }
{
    arrays(alloc, work.structs.as_slice(), at, t, lengths)
}

/// Whether a declared name is const.
pub fn is_const_at(stars: u8, said: bool, named: bool) -> bool
    ensures { result ≡ spec.is_const_at stars said named }
{
    stars == 0 && (said || named)
}

/// The struct with one more field.
pub fn with_field(
    work: &Work,
    at: Pos,
    made: Struct,
    name: &Name,
    t: CoreType,
    is_const: bool,
) -> Result<Struct, Fault>
    ensures { Follows struct_of result (operators.with_field_named (map struct_of work.now.structs.items) at (struct_of made) name.now (type_of t) is_const) }
{
    let name = name.clone()?;
    with_field_named(work.structs.as_slice(), at, made, name, t, is_const)
}
