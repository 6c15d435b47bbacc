//! What is known of one item.

ghost use Rattle.std.specs.Prelude.{◌≡◌, IfOk, Some, map};
ghost use Rattle.std.specs.Option.{option_map};
ghost use Rattle.nesc_tree.specs.View.{spec_of};
ghost use Rattle.elab_facts.specs.View.{fact_of, form_of, reached_of, target_of};
ghost use Rattle.elab_meaning.specs.Answers.{Gives};
ghost use Rattle.elab_meaning.specs.View.{env_of, state_of};
ghost use Rattle.elab_targets.specs.Starts.{AreTables};
ghost use Rattle.elab_targets.specs.View.{application_of, element_of, headers_of, sig_of};
ghost use Rattle.program_meaning.specs.Items as spec;
ghost use Rattle.elab_items.specs.Parts as parts;

use crate::combined::combiner;
use crate::ground::Ground;
use elab_exprs::Told;
use elab_facts::{Fact, Form, Reached, Target};
use elab_heads::{same_flag, signature};
use elab_meaning::Work;
use elab_targets::{Element, cases_of, one_target};
use nesc_tree::Sig;
use nm_base::{Fault, List, Name, NoMemory, beside};
use std::alloc::Global;

// What calls of an item reach.
#[derive(Drop)]
pub(crate) struct Ends {
    pub one: Option<Target>,
    pub combine: Option<Name>,
    pub cases: List<Reached>,
}

fn ends_of(alloc: Global, ground: &Ground, x: &Element, item: &Sig) -> Result<Ends, NoMemory>
    ensures one { AreTables (application_of ground.now.app.now) ground.now.tables.now → IfOk result (λ e. option_map target_of e.one ≡ spec.one_target (application_of ground.now.app.now) ground.now.instance (element_of x.now) x.now.parameter item.now.name) }
    ensures combine { AreTables (application_of ground.now.app.now) ground.now.tables.now → IfOk result (λ e. e.combine ≡ spec.combine_named (headers_of ground.now.app.now) x.now.params.now (spec.type_name (spec_of item.now.result))) }
    ensures cases { AreTables (application_of ground.now.app.now) ground.now.tables.now → IfOk result (λ e. map reached_of e.cases ≡ spec.cases_of (application_of ground.now.app.now) ground.now.instance (element_of x.now) item.now.name) }
{
    let one = one_target(
        alloc,
        ground.app,
        ground.tables,
        ground.instance,
        x,
        &item.name,
    )?;
    let combine = combiner(alloc, ground.app, x.params, &item.result)?;
    let cases = cases_of(
        alloc,
        ground.app,
        ground.tables,
        ground.instance,
        x,
        &item.name,
    );
    let (combine, cases) = beside(combine, cases)?;
    Ok(Ends {
        one,
        combine,
        cases,
    })
}

fn names_of(x: &Element, item: &Sig) -> Result<(Name, Name), NoMemory>
    ensures { IfOk result (λ n. (n.0 ≡ x.now.name.now) × (n.1 ≡ item.now.name)) }
{
    let element = x.name.clone()?;
    Ok((element, item.name.clone()?))
}

fn fact(
    alloc: Global,
    ground: &Ground,
    x: &Element,
    item: &Sig,
    form: Form,
) -> Result<Fact, NoMemory>
    ensures { AreTables (application_of ground.now.app.now) ground.now.tables.now → IfOk result (λ f. fact_of f ≡ spec.fact (application_of ground.now.app.now) ground.now.instance (element_of x.now) (sig_of item.now) (form_of form)) }
{
    let (form, ends) = beside(form, ends_of(alloc, ground, x, item))?;
    let ((form, ends), (element, name)) = beside((form, ends), names_of(x, item))?;
    Ok(Fact {
        element,
        name,
        form: Form {
            kind: form.kind,
            is_async: form.is_async,
            is_default: form.is_default,
            bracket: x.parameter,
            params: form.params,
            result: form.result,
        },
        is_event: item.is_event,
        comes_out: same_flag(x.provides, item.is_event),
        one: ends.one,
        cases: ends.cases,
        combine: ends.combine,
    })
}

/// What is known of an item of an element. Errors: those of its types, at its name.
pub fn item_fact(
    alloc: Global,
    ground: &Ground,
    told: &Told,
    work: &mut Work,
    x: &Element,
    item: &Sig,
) -> Result<Fact, Fault>
    ensures { AreTables (application_of ground.now.app.now) ground.now.tables.now → Gives fact_of result (state_of work.new) (parts.one_item (application_of ground.now.app.now) (env_of told.now.env) told.now.values ground.now.instance (element_of x.now) (sig_of item.now) (state_of work.old)) }
{
    let form = signature(alloc, told, work, item)?;
    Ok(fact(alloc, ground, x, item, form)?)
}
