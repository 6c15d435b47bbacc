//! Parameters: how they are passed, and their places among the locals and the names in force.

ghost use Rattle.std.specs.Prelude.{◌≡◌, false, map};
ghost use Rattle.std.specs.Option.{option_map};
ghost use Rattle.nesc_core.specs.Plain as core;
ghost use Rattle.nesc_core.specs.View.{type_of as core_type_of};
ghost use Rattle.nesc_tree.specs.View.{spec_of};
ghost use Rattle.elab_meaning.specs.Answers.{Follows, Gives};
ghost use Rattle.elab_meaning.specs.Convert as convert;
ghost use Rattle.elab_meaning.specs.View.{env_of, state_of, struct_of};
ghost use Rattle.body_meaning.specs.View.{param_of};
ghost use Rattle.program_meaning.specs.Heads as spec;
ghost use Rattle.elab_heads.specs.Parts as parts;
ghost use Rattle.elab_heads.specs.View.{passed_of};

use crate::shapes::Passed;
use elab_exprs::{Told, base, lengths, type_of};
use elab_forms::{is_const_at, resolved, starred};
use elab_meaning::{Meaning, Struct, Work};
use elab_types::new_name;
use elab_values::{bad_type, copied, pointer_to};
use nesc_core::CoreType;
use nesc_tree::{Param, TypeSpec};
use nm_base::{Fault, IntType, List, Name, Pos, beside};
use std::alloc::Global;

// ---- types

// A pointer to the first element of an array.
fn decayed(alloc: Global, structs: &[Struct], at: Pos, part: CoreType) -> Result<Passed, Fault>
    ensures { Follows passed_of result (spec.as_pointer (convert.pointer_to (map struct_of structs.now) at (core_type_of part))) }
{
    let ty = pointer_to(alloc, structs, at, part)?;
    Ok(Passed {
        ty,
        is_const: false,
    })
}

// An array is a pointer to its first element (C99, 6.7.5.3).
fn passed(
    alloc: Global,
    structs: &[Struct],
    at: Pos,
    t: CoreType,
    is_const: bool,
) -> Result<Passed, Fault>
    ensures { Follows passed_of result (spec.passed (map struct_of structs.now) at (core_type_of t) is_const) }
{
    match t {
        CoreType::Void => bad_type(at),
        CoreType::Int(int) => Ok(Passed {
            ty: CoreType::Int(int),
            is_const,
        }),
        CoreType::Pointer(part) => Ok(Passed {
            ty: CoreType::Pointer(part),
            is_const,
        }),
        CoreType::Array(part, _) => decayed(alloc, structs, at, Box::into_inner(part)),
        CoreType::Struct(_) => bad_type(at),
    }
}

/// How a parameter of this type is passed, told at the function's name: an array is a pointer to its first element (C99, 6.7.5.3). Errors:
/// BadType for nothing and for a struct, and what the type itself is refused for.
pub fn passed_by(
    alloc: Global,
    told: &Told,
    work: &mut Work,
    at: Pos,
    t: &TypeSpec,
) -> Result<Passed, Fault>
    ensures { Gives passed_of result (state_of work.new) (spec.passed_by (env_of told.now.env) told.now.values at (spec_of t.now) (state_of work.old)) }
{
    let b = base(alloc, told, work, &t.base, at)?;
    let is_const = is_const_at(t.stars, t.is_const, b.is_const);
    let part = starred(alloc, work, at, t.stars, &b)?;
    let (part, ns) = beside(part, lengths(alloc, told, work, &t.dims))?;
    let ty = resolved(alloc, work, at, part, ns)?;
    passed(alloc, work.structs.as_slice(), at, ty, is_const)
}

// An unsigned number of 8 or 16 bits.
fn of_bracket(at: Pos, t: CoreType) -> Result<IntType, Fault>
    ensures { Follows (λ n. n) result (spec.of_bracket at (core_type_of t)) }
{
    match t {
        CoreType::Int(IntType::U8) => Ok(IntType::U8),
        CoreType::Int(IntType::U16) => Ok(IntType::U16),
        CoreType::Int(IntType::I8 | IntType::I16 | IntType::I32 | IntType::U32) => bad_type(at),
        CoreType::Void | CoreType::Pointer(_) | CoreType::Array(_, _) | CoreType::Struct(_) =>
            bad_type(at),
    }
}

// ---- places among the locals and the names in force

// The name of a parameter that is this local.
fn named_parameter(
    alloc: Global,
    work: &mut Work,
    at: Pos,
    local: u32,
    p: &Passed,
    name: &Option<Name>,
) -> Result<(), Fault>
    ensures { Gives (λ _. tt) result (state_of work.new) (spec.named_parameter at local (passed_of p.now) name.now (state_of work.old)) }
{
    match name {
        None => Ok(()),
        Some(name) => {
            new_name(at, work.first_name, work.names.as_slice(), name)?;
            let copy = name.clone()?;
            work.add_name(
                copy,
                Meaning::Local(local, copied(alloc, &p.ty)?, p.is_const),
            )
        }
    }
}

fn placed(
    alloc: Global,
    work: &mut Work,
    at: Pos,
    p: &Passed,
    name: &Option<Name>,
) -> Result<(), Fault>
    ensures { Gives (λ _. tt) result (state_of work.new) (spec.parameter at (passed_of p.now) name.now (state_of work.old)) }
{
    let local = work.fresh(copied(alloc, &p.ty)?)?;
    named_parameter(alloc, work, at, local, p, name)
}

/// A parameter is the next local, and its name, where it has one, comes in force. Errors: DuplicateName at the function's name.
pub fn parameter(
    alloc: Global,
    work: &mut Work,
    at: Pos,
    p: Passed,
    name: &Option<Name>,
) -> Result<(), Fault>
    ensures { Gives (λ _. tt) result (state_of work.new) (spec.parameter at (passed_of p) name.now (state_of work.old)) }
{
    placed(alloc, work, at, &p, name)
}

fn one_parameter(
    alloc: Global,
    told: &Told,
    work: &mut Work,
    at: Pos,
    p: &Param,
) -> Result<CoreType, Fault>
    ensures { Gives core_type_of result (state_of work.new) (parts.one_parameter (env_of told.now.env) told.now.values at (param_of p.now) (state_of work.old)) }
{
    let t = passed_by(alloc, told, work, at, &p.ty)?;
    let done = placed(alloc, work, at, &t, &p.name);
    let (ty, _) = beside(t.ty, done)?;
    Ok(ty)
}

/// Parameters from left to right, the next locals.
#[tactic(auto, using(crate::proofs::Loops::parameter_lists))]
pub(crate) fn parameters(
    alloc: Global,
    told: &Told,
    work: &mut Work,
    at: Pos,
    params: &List<Param>,
) -> Result<Vec<CoreType>, Fault>
    ensures { Gives (λ v. map core_type_of v.items) result (state_of work.new) (spec.parameters (env_of told.now.env) told.now.values at (map param_of params.now) (state_of work.old)) }
{
    let mut types = Vec::new(alloc);
    for p in params.as_slice() {
        let t = one_parameter(alloc, told, work, at, p)?;
        types.push(t)?;
    }
    Ok(types)
}

// The parameter in a bracket, which has this type.
fn in_bracket(
    alloc: Global,
    work: &mut Work,
    at: Pos,
    int: IntType,
    name: &Option<Name>,
) -> Result<(), Fault>
    ensures { Gives (λ _. tt) result (state_of work.new) (spec.parameter at (record { ty = core.int int; is_const = false }) name.now (state_of work.old)) }
{
    let p = Passed {
        ty: CoreType::Int(int),
        is_const: false,
    };
    placed(alloc, work, at, &p, name)
}

/// The parameter that stands in a bracket.
pub(crate) fn inside(p: &Option<Param>) -> Option<&Param>
    ensures { option_map (λ q. param_of q.now) result ≡ option_map param_of p.now }
{
    match p {
        None => None,
        Some(p) => Some(p),
    }
}

pub(crate) fn bracketed(
    alloc: Global,
    told: &Told,
    work: &mut Work,
    at: Pos,
    p: Option<&Param>,
) -> Result<Option<IntType>, Fault>
    ensures { Gives (λ t. t) result (state_of work.new) (spec.bracket (env_of told.now.env) told.now.values at (option_map (λ q. param_of q.now) p.entry) (state_of work.old)) }
{
    match p {
        None => Ok(None),
        Some(p) => {
            let t = type_of(alloc, told, work, &p.ty, at)?;
            let int = of_bracket(at, t)?;
            in_bracket(alloc, work, at, int, &p.name)?;
            Ok(Some(int))
        }
    }
}

/// The type of the parameter in the bracket of a command or event, an unsigned number of 8 or 16 bits (nesC 1.3 Reference, 6), which is the
/// first local. Errors: BadType for another type.
pub fn bracket(
    alloc: Global,
    told: &Told,
    work: &mut Work,
    at: Pos,
    p: &Option<Param>,
) -> Result<Option<IntType>, Fault>
    ensures { Gives (λ t. t) result (state_of work.new) (spec.bracket (env_of told.now.env) told.now.values at (option_map param_of p.now) (state_of work.old)) }
{
    bracketed(alloc, told, work, at, inside(p))
}
