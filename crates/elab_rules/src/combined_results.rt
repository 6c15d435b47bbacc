//! Functions that combine the results of calls.

ghost use Rattle.std.specs.Prelude.{◌≡◌, ◌∷◌, [], map};
ghost use Rattle.std.specs.List.{filter};
ghost use Rattle.elab_facts.specs.View.{declared_of, fact_of, form_of};
ghost use Rattle.elab_meaning.specs.Answers.{Follows};
ghost use Rattle.elab_rules.specs.Parts as own;
ghost use Rattle.elab_rules.specs.Tells.{Tells};
ghost use Rattle.nesc_core.specs.View.{type_of};
ghost use Rattle.program_meaning.specs.Heads as heads;
ghost use Rattle.program_meaning.specs.Walk as spec;

use crate::told::ModuleTold;
use elab_dispatch::combines;
use elab_facts::{Declared, Fact, Form};
use elab_heads::{same_kind, same_types};
use elab_values::bad_type;
use nesc_core::{CoreType, is_same_type};
use nesc_tree::FuncKind;
use nm_base::{Fault, Name, Pos};

fn is_combining(name: &Name, d: &Declared) -> bool
    ensures { result ≡ spec.is_combining name.now (declared_of d.now) }
{
    d.name == *name && d.is_defined
}

fn are_two(types: &[CoreType], t: &CoreType) -> bool
    ensures { result ≡ heads.same_types (map type_of types.now) (type_of t.now ∷ type_of t.now ∷ []) }
{
    let Some((first, rest)) = types.split_first() else {
        return false;
    };
    let Some((second, more)) = rest.split_first() else {
        return false;
    };
    is_same_type(first, t) && is_same_type(second, t) && same_types(more, &[])
}

fn combines_type(t: &CoreType, f: &Form) -> bool
    ensures { result ≡ spec.combines_type (type_of t.now) (form_of f.now) }
{
    same_kind(f.kind, FuncKind::Plain)
        && are_two(f.params.as_slice(), t)
        && is_same_type(&f.result, t)
}

fn combining_by(at: Pos, t: &CoreType, body: u32, d: &Declared) -> Result<Option<u32>, Fault>
    ensures { Follows (λ o. o) result (own.combining_by at (type_of t.now) body (declared_of d.now)) }
{
    if combines_type(t, &d.form) {
        Ok(Some(body))
    } else {
        bad_type(at)
    }
}

// The function of headers with this name and this body.
#[tactic(auto, using(crate::proofs::Filters::filters))]
fn combining_in(
    at: Pos,
    t: &CoreType,
    body: u32,
    name: &Name,
    headers: &[Declared],
) -> Result<Option<u32>, Fault>
    ensures { Follows (λ o. o) result (spec.combining at (type_of t.now) (Some body) (filter (spec.is_combining name.now) (map declared_of headers.now))) }
{
    for d in headers {
        if is_combining(name, d) {
            return combining_by(at, t, body, d);
        }
    }
    bad_type(at)
}

fn combining_at(
    at: Pos,
    t: &CoreType,
    body: Option<u32>,
    name: &Name,
    headers: &[Declared],
) -> Result<Option<u32>, Fault>
    ensures { Follows (λ o. o) result (spec.combining at (type_of t.now) body (filter (spec.is_combining name.now) (map declared_of headers.now))) }
{
    match body {
        None => bad_type(at),
        Some(body) => combining_in(at, t, body, name, headers),
    }
}

fn combined_by(told: &ModuleTold, at: Pos, fact: &Fact) -> Result<Option<u32>, Fault>
    ensures { (t : spec.Told) → Tells told.now t → Follows (λ o. o) result (spec.combined_by t at (fact_of fact.now) (fact_of fact.now).combine) }
{
    match &fact.combine {
        None => Ok(None),
        Some(name) => {
            let body = told.header_places.function(name);
            combining_at(at, &fact.form.result, body, name, told.headers)
        }
    }
}

/// The body of the function that combines two results of an item, where two are combined and a function is named: BadType where the headers
/// define none that takes two results and gives a third (nesC 1.3 Reference, 9).
pub fn combined(told: &ModuleTold, at: Pos, fact: &Fact) -> Result<Option<u32>, Fault>
    ensures { (t : spec.Told) → Tells told.now t → Follows (λ o. o) result (spec.combined t at (fact_of fact.now)) }
{
    if combines(fact) {
        combined_by(told, at, fact)
    } else {
        Ok(None)
    }
}

/// Whether results are combined by no function.
pub fn loses(fact: &Fact, combine: Option<u32>) -> bool
    ensures { result ≡ spec.loses (fact_of fact.now) combine }
{
    match combine {
        None => combines(fact),
        Some(_) => false,
    }
}

/// Calls of an item come out of the module; else BadType.
pub fn called_from_here(at: Pos, comes_out: bool) -> Result<(), Fault>
    ensures { Follows (λ _. tt) result (spec.called_from_here at comes_out) }
{
    if comes_out { Ok(()) } else { bad_type(at) }
}
