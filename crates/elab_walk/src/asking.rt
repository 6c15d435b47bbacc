//! Dispatch functions that calls ask for.

ghost use Rattle.std.specs.Prelude.{◌≡◌, map, drop, IfOk, slice_get, option_copied};
ghost use Rattle.std.specs.Option.{option_map};
ghost use Rattle.nesc_core.specs.View.{body_of};
ghost use Rattle.elab_facts.specs.View.{fact_of};
ghost use Rattle.elab_meaning.specs.View.{asked_of};
ghost use Rattle.elab_making.specs.Does.{Does};
ghost use Rattle.elab_making.specs.View.{whole_of};
ghost use Rattle.elab_rules.specs.Tells.{Tells};
ghost use Rattle.elab_walk.specs.Parts as parts;
ghost use Rattle.program_meaning.specs.Walk as spec;
ghost use Rattle.program_meaning.specs.Walk.{Told};

use elab_dispatch::dispatch;
use elab_facts::Fact;
use elab_making::Whole;
use elab_meaning::Asked;
use elab_rules::{ModuleTold, called_from_here, combined, dispatch_name, loses};
use elab_weights::weighed;
use nesc_core::{Body, Warning};
use nm_base::{Fault, Name, NoMemory, Pos, Refusal, beside};
use std::alloc::Global;

// A dispatch function, whose frame is not too large.
fn weighed_dispatch(alloc: Global, whole: &mut Whole, at: Pos, b: Body) -> Result<(), Fault>
    ensures { Does (λ _. tt) result (whole_of whole.new) (parts.weighed_dispatch at (body_of b) (whole_of whole.old)) }
{
    let weight = weighed(alloc, whole.work.structs.as_slice(), at, &b);
    let (b, _) = beside(b, weight)?;
    whole.add_dispatch(b)
}

fn warned(whole: &mut Whole, loses: bool, at: Pos, name: &Name) -> Result<(), Fault>
    ensures { Does (λ _. tt) result (whole_of whole.new) (spec.warned loses at name.now (whole_of whole.old)) }
{
    if !loses {
        return Ok(());
    }
    let name = name.clone()?;
    whole.add_warning(Warning { pos: at, name })
}

// The dispatch function of an item whose results are combined by a function, or by none.
fn made_dispatch(
    alloc: Global,
    whole: &mut Whole,
    name: &Name,
    at: Pos,
    x: &Fact,
    f: Option<u32>,
) -> Result<(), Fault>
    ensures { Does (λ _. tt) result (whole_of whole.new) (parts.made_dispatch name.now at (fact_of x.now) f (whole_of whole.old)) }
{
    let b = dispatch(alloc, name.clone()?, &x.form, f, at, x.cases.as_slice())?;
    weighed_dispatch(alloc, whole, at, b)?;
    warned(whole, loses(x, f), at, name)
}

// The same with the definition cut where the code is cut.
fn cut_dispatched(
    alloc: Global,
    m: &ModuleTold,
    whole: &mut Whole,
    name: &Name,
    at: Pos,
    x: &Fact,
) -> Result<(), Fault>
    ensures { (t : Told) → Tells m.now t → Does (λ _. tt) result (whole_of whole.new) (parts.dispatched name.now t at (fact_of x.now) (whole_of whole.old)) }
{
    called_from_here(at, x.comes_out)?;
    let f = combined(m, at, x)?;
    made_dispatch(alloc, whole, name, at, x, f)
}

// The dispatch function of an item that is called at a place.
fn dispatched(
    alloc: Global,
    m: &ModuleTold,
    whole: &mut Whole,
    name: &Name,
    at: Pos,
    x: &Fact,
) -> Result<(), Fault>
    ensures { (t : Told) → Tells m.now t → Does (λ _. tt) result (whole_of whole.new) (spec.dispatched name.now t at (fact_of x.now) (whole_of whole.old)) }
{
    cut_dispatched(alloc, m, whole, name, at, x)
}

fn fact_at<'a>(m: &ModuleTold<'a>, item: u32) -> Option<&'a Fact>
    ensures { (t : Told) → Tells m.now t → option_map fact_of (option_copied result) ≡ slice_get t.facts item }
{
    m.facts.get(item as usize)
}

// What is asked for, of the item that has the number.
fn asked_by(
    alloc: Global,
    m: &ModuleTold,
    whole: &mut Whole,
    a: Asked,
    x: Option<&Fact>,
) -> Result<(), Fault>
    ensures { (t : Told) → Tells m.now t → Does (λ _. tt) result (whole_of whole.new) (spec.asked_of (spec.or_nothing t.instance) t (asked_of a) (option_map fact_of (option_copied x.entry)) (whole_of whole.old)) }
{
    match x {
        None => Err(Fault::Refused(Refusal::UnknownName(a.at))),
        Some(x) => {
            let name = dispatch_name(alloc, m, x)?;
            dispatched(alloc, m, whole, &name, a.at, x)
        }
    }
}

fn one_asked(alloc: Global, m: &ModuleTold, whole: &mut Whole, a: &Asked) -> Result<(), Fault>
    ensures { (t : Told) → Tells m.now t → Does (λ _. tt) result (whole_of whole.new) (parts.one_asked t (asked_of a.now) (whole_of whole.old)) }
{
    asked_by(alloc, m, whole, *a, fact_at(m, a.item))
}

// All of these, in their order.
fn all_asked(alloc: Global, m: &ModuleTold, whole: &mut Whole, asked: &[Asked]) -> Result<(), Fault>
    ensures { (t : Told) → Tells m.now t → Does (λ _. tt) result (whole_of whole.new) (spec.all_asked t (map asked_of asked.now) (whole_of whole.old)) }
{
    for a in asked {
        one_asked(alloc, m, whole, a)?;
    }
    Ok(())
}

// What is asked for behind the first of it.
fn asked_behind(alloc: Global, asked: &[Asked], first: usize) -> Result<Vec<Asked>, NoMemory>
    ensures { IfOk result (λ v. map asked_of v.items ≡ drop first (map asked_of asked.now)) }
{
    match asked.get(first..) {
        Some(more) => Ok(more.to_vec(alloc)?),
        None => Ok(Vec::new(alloc)),
    }
}

/// The dispatch functions that were not there before, in the order of their first calls. Errors: BadType at the first call of an item whose
/// calls do not come out of it, whose results no function combines that may, or whose dispatch function has too large a frame.
pub(crate) fn dispatch_asked(alloc: Global, m: &ModuleTold, whole: &mut Whole) -> Result<(), Fault>
    ensures { (t : Told) → Tells m.now t → Does (λ _. tt) result (whole_of whole.new) (spec.dispatch_asked t (whole_of whole.old)) }
{
    let asked = asked_behind(alloc, whole.work.asked.as_slice(), whole.dispatch.len())?;
    all_asked(alloc, m, whole, &asked)
}
