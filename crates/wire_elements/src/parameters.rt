//! Parameters of generic components, which get their arguments.

ghost use Rattle.std.specs.Prelude.{map};
ghost use Rattle.std.specs.Option.{option_map};
ghost use Rattle.nesc_tree.specs.View.{spec_of};
ghost use Rattle.elab_meaning.specs.Answers.{Gives};
ghost use Rattle.elab_meaning.specs.Elab.{add_name};
ghost use Rattle.elab_meaning.specs.View.{meaning_of, state_of};
ghost use Rattle.wire_facts.specs.Components.{arg_of, param_of};
ghost use Rattle.wire_facts.specs.Scopes.{inside, no_scope};
ghost use Rattle.wire_facts.specs.Seen as spec;
ghost use Rattle.wire_scopes.specs.View.{base_view, scope_of};
ghost use Rattle.wire_elements.specs.Given.{given_of};
ghost use Rattle.wire_elements.specs.Parts as parts;
ghost use Rattle.wire_elements.specs.View.{early_env};

use crate::arguments::{Given, given_by, meaning_given};
use crate::early::Early;
use crate::making::Making;
use crate::scoped::{entered, left};
use elab_meaning::{Meaning, Work};
use elab_values::integer;
use nesc_tree::{GenericArg, GenericParam, TypeSpec};
use nm_base::{Fault, IntType, Name, Pos, beside};
use std::alloc::{AllocError, Global};
use wire_scopes::{Base, Scope, no_scope};

fn integer_in(
    alloc: Global,
    early: &Early,
    work: &mut Work,
    t: &TypeSpec,
    at: Pos,
) -> Result<Option<IntType>, Fault>
    ensures { Gives (λ i. i) result (state_of work.new) (parts.integer_in (early_env early.now) at (spec_of t.now) (state_of work.old)) }
{
    let t = early.type_of(alloc, work, t, at)?;
    let int = integer(at, &t)?;
    Ok(Some(int))
}

// The integer type of a parameter that is no type.
fn param_type(
    alloc: Global,
    early: &Early,
    work: &mut Work,
    ty: &Option<TypeSpec>,
    at: Pos,
) -> Result<Option<IntType>, Fault>
    ensures { Gives (λ i. i) result (state_of work.new) (spec.param_type (early_env early.now) at (option_map spec_of ty.now) (state_of work.old)) }
{
    match ty {
        None => Ok(None),
        Some(t) => integer_in(alloc, early, work, t, at),
    }
}

fn add_meaning(work: &mut Work, name: &Name, meaning: Meaning) -> Result<(), Fault>
    ensures { Gives (λ _. tt) result (state_of work.new) (add_name name.now (meaning_of meaning) (state_of work.old)) }
{
    let copy: Result<Name, AllocError> = name.clone();
    let (meaning, copy) = beside(meaning, copy)?;
    work.add_name(copy, meaning)
}

fn meant(
    work: &mut Work,
    line: Pos,
    p: &GenericParam,
    t: Option<IntType>,
    x: Given,
) -> Result<(), Fault>
    ensures { Gives (λ _. tt) result (state_of work.new) (parts.meant line p.now.name t (given_of x) (state_of work.old)) }
{
    let meaning = meaning_given(line, t, x)?;
    add_meaning(work, &p.name, meaning)
}

// A parameter gets its argument; its type may name earlier ones.
fn param_declared(
    alloc: Global,
    early: &Early,
    work: &mut Work,
    p: &GenericParam,
    at: Pos,
    line: Pos,
    x: Given,
) -> Result<(), Fault>
    ensures { Gives (λ _. tt) result (state_of work.new) (spec.param_declared (early_env early.now) at line (param_of p.now) (given_of x) (state_of work.old)) }
{
    let (x, t) = beside(x, param_type(alloc, early, work, &p.ty, at))?;
    meant(work, line, p, t, x)
}

// A parameter is declared inside the scope of the instance, which is given with it.
fn declared_inside(
    alloc: Global,
    work: &mut Work,
    base: Base,
    making: &Making,
    p: &GenericParam,
    x: Given,
    scope: Scope,
) -> Result<((), Scope), Fault>
    ensures { Gives (λ y. (tt, scope_of y.1)) result (state_of work.new) (inside (base_view base) (scope_of scope) (spec.param_declared (early_env making.now.made.now) making.now.at making.now.line (param_of p.now) (given_of x)) (state_of work.old)) }
{
    let before = entered(work, base, scope)?;
    let declared = param_declared(alloc, making.made, work, p, making.at, making.line, x);
    left(work, base, before, declared)
}

// The scope of the instance with one more parameter.
fn declared_in(
    alloc: Global,
    work: &mut Work,
    base: Base,
    making: &Making,
    p: &GenericParam,
    x: Given,
    scope: Scope,
) -> Result<Scope, Fault>
    ensures { Gives scope_of result (state_of work.new) (parts.declared_in (base_view base) (early_env making.now.made.now) making.now.at making.now.line (param_of p.now) (given_of x) (scope_of scope) (state_of work.old)) }
{
    let (_, scope) = declared_inside(alloc, work, base, making, p, x, scope)?;
    Ok(scope)
}

// An argument is evaluated in the maker's scope, and then declared in that of the instance.
fn param_given(
    alloc: Global,
    work: &mut Work,
    base: Base,
    making: &Making,
    p: &GenericParam,
    x: &GenericArg,
    scope: Scope,
) -> Result<Scope, Fault>
    ensures { Gives scope_of result (state_of work.new) (spec.param_given (base_view base) (early_env making.now.maker.now) (early_env making.now.made.now) making.now.at making.now.line (param_of p.now) (arg_of x.now) (scope_of scope) (state_of work.old)) }
{
    let (scope, x) = beside(scope, given_by(alloc, making.maker, work, x, making.line))?;
    declared_in(alloc, work, base, making, p, x, scope)
}

/// The scope of an instance whose parameters get these arguments, from left to right.
pub(crate) fn params_declared(
    alloc: Global,
    work: &mut Work,
    base: Base,
    making: &Making,
    args: &[GenericArg],
) -> Result<Scope, Fault>
    ensures { Gives scope_of result (state_of work.new) (spec.params_declared (base_view base) (early_env making.now.maker.now) (early_env making.now.made.now) making.now.at making.now.line (map param_of making.now.params.now) (map arg_of args.now) no_scope (state_of work.old)) }
{
    let mut scope = no_scope(alloc);
    let mut params = making.params;
    for x in args {
        let Some((p, others)) = params.split_first() else {
            return Ok(scope);
        };
        scope = param_given(alloc, work, base, making, p, x, scope)?;
        params = others;
    }
    Ok(scope)
}
