//! What functions, tasks and items are by their heads.

ghost use Rattle.std.specs.Prelude.{◌≡◌, [], map};
ghost use Rattle.std.specs.List.{filter};
ghost use Rattle.body_meaning.specs.View.{head_of};
ghost use Rattle.elab_facts.specs.View.{fact_of, form_of};
ghost use Rattle.elab_meaning.specs.Answers.{Follows};
ghost use Rattle.elab_rules.specs.Parts as own;
ghost use Rattle.elab_rules.specs.Tells.{Tells};
ghost use Rattle.program_meaning.specs.Heads as heads;
ghost use Rattle.program_meaning.specs.Walk as spec;

use crate::named::{in_module, or_nothing};
use crate::refusals::argument_mismatch;
use crate::told::ModuleTold;
use elab_facts::{Fact, Form};
use elab_heads::{same_flag, same_kind, same_signature, same_types};
use elab_values::{bad_type, is_void, unknown_name};
use nesc_tree::{FuncHead, FuncKind};
use nm_base::{Fault, Name, Pos};

fn takes_nothing(f: &Form) -> bool
    ensures { result ≡ heads.same_types (form_of f.now).params [] }
{
    same_types(f.params.as_slice(), &[])
}

/// A task of a module takes nothing and gives nothing; else BadType.
pub fn well_tasked(inside: bool, at: Pos, f: &Form) -> Result<(), Fault>
    ensures { Follows (λ _. tt) result (spec.well_tasked inside at (form_of f.now)) }
{
    if inside && takes_nothing(f) && is_void(&f.result) {
        Ok(())
    } else {
        bad_type(at)
    }
}

fn is_fact(element: &Name, item: &[u8], fact: &Fact) -> bool
    ensures { result ≡ spec.is_fact element.now item.now (fact_of fact.now) }
{
    fact.element == *element && fact.name.as_bytes() == item
}

fn implements(f: &Form, fact: &Fact) -> bool
    ensures { result ≡ spec.implements (form_of f.now) (fact_of fact.now) }
{
    same_flag(f.is_default, fact.comes_out)
        && same_kind(f.kind, fact.form.kind)
        && same_flag(f.is_async, fact.form.is_async)
        && same_signature(f, &fact.form)
}

fn implementing(at: Pos, f: &Form, fact: &Fact) -> Result<(), Fault>
    ensures { Follows (λ _. tt) result (own.implementing at (form_of f.now) (fact_of fact.now)) }
{
    if implements(f, fact) {
        Ok(())
    } else {
        argument_mismatch(at)
    }
}

/// Commands of a provided interface and events of a used one are implemented, and there are defaults for the others: UnknownName where the
/// element has no such item, ArgumentMismatch where the heads differ (nesC 1.3 Reference, 5 and 6).
#[tactic(auto, using(crate::proofs::Filters::filters))]
pub fn implemented(
    at: Pos,
    f: &Form,
    element: &Name,
    item: &Option<Name>,
    facts: &[Fact],
) -> Result<(), Fault>
    ensures { Follows (λ _. tt) result (spec.implemented_item at (form_of f.now) (filter (spec.is_fact element.now (spec.or_nothing item.now)) (map fact_of facts.now))) }
{
    let wanted = or_nothing(item);
    for fact in facts {
        if is_fact(element, wanted, fact) {
            return implementing(at, f, fact);
        }
    }
    unknown_name(at)
}

/// What a head must be by its kind: see `well_tasked` and `implemented`.
pub fn well_formed(told: &ModuleTold, h: &FuncHead, f: &Form) -> Result<(), Fault>
    ensures { (t : spec.Told) → Tells told.now t → Follows (λ _. tt) result (spec.well_formed t (head_of h.now) (form_of f.now) h.now.kind) }
{
    match h.kind {
        FuncKind::Plain => Ok(()),
        FuncKind::Task => well_tasked(in_module(&told.instance), h.pos, f),
        FuncKind::Command => implemented(h.pos, f, &h.name, &h.item, told.facts),
        FuncKind::Event => implemented(h.pos, f, &h.name, &h.item, told.facts),
    }
}
