//! Specifications of instances, and the instances that generic components make.

ghost use Rattle.std.specs.Prelude.{[], map};
ghost use Rattle.elab_meaning.specs.Answers.{Gives};
ghost use Rattle.elab_meaning.specs.View.{state_of};
ghost use Rattle.wire_facts.specs.Components.{arg_of, element_of, param_of};
ghost use Rattle.wire_facts.specs.Scopes.{inside};
ghost use Rattle.wire_facts.specs.Seen as spec;
ghost use Rattle.wire_scopes.specs.Keys.{types_in};
ghost use Rattle.wire_scopes.specs.View.{base_view, scope_of};
ghost use Rattle.wire_elements.specs.View.{early_env, seen_of};

use crate::early::Early;
use crate::elements::elements_told;
use crate::making::Making;
use crate::parameters::params_declared;
use crate::scoped::{entered, left};
use crate::seen::Seen;
use elab_meaning::Work;
use nesc_tree::{Elem, GenericArg};
use nm_base::Fault;
use std::alloc::Global;
use wire_pairs::ElementFacts;
use wire_scopes::{Base, Scope, Types};

// What is told of elements inside the scope of their instance, and that scope behind them.
fn elements_inside(
    alloc: Global,
    early: &Early,
    work: &mut Work,
    types: &mut Types,
    base: Base,
    elems: &[Elem],
    scope: Scope,
) -> Result<(Vec<ElementFacts>, Scope), Fault>
    ensures { Gives (λ x. ((x.0.items, types_in types.new), scope_of x.1)) result (state_of work.new) (inside (base_view base) (scope_of scope) (spec.elements_told (early_env early.now) (types_in types.old) [] (map element_of elems.now)) (state_of work.old)) }
{
    let before = entered(work, base, scope)?;
    let told = elements_told(alloc, early, work, types, elems);
    left(work, base, before, told)
}

/// What is seen of an instance behind its specification, or the first refusal; its parameters are in its scope (nesC 1.3 Reference, 6 and
/// 7).
pub fn specified(
    alloc: Global,
    early: &Early,
    work: &mut Work,
    types: &mut Types,
    base: Base,
    elems: &[Elem],
    scope: Scope,
) -> Result<Seen, Fault>
    ensures { Gives (λ s. (seen_of s, types_in types.new)) result (state_of work.new) (spec.specified (base_view base) (early_env early.now) (map element_of elems.now) (types_in types.old) (scope_of scope) (state_of work.old)) }
{
    let (elements, scope) = elements_inside(alloc, early, work, types, base, elems, scope)?;
    Ok(Seen {
        scope,
        elements,
        lines: Vec::new(alloc),
    })
}

/// What is seen of an instance of a generic component, or the first refusal: its parameters get these arguments, and then its
/// specification is told (nesC 1.3 Reference, 7).
pub fn made_by(
    alloc: Global,
    work: &mut Work,
    types: &mut Types,
    base: Base,
    making: &Making,
    args: &[GenericArg],
) -> Result<Seen, Fault>
    ensures { Gives (λ s. (seen_of s, types_in types.new)) result (state_of work.new) (spec.made_by (base_view base) (early_env making.now.maker.now) (early_env making.now.made.now) making.now.at making.now.line (map element_of making.now.elems.now) (map param_of making.now.params.now) (map arg_of args.now) (types_in types.old) (state_of work.old)) }
{
    let scope = params_declared(alloc, work, base, making, args)?;
    specified(alloc, making.made, work, types, base, making.elems, scope)
}
