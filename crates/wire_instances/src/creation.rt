//! Creation.

ghost use Rattle.std.specs.Prelude.{◌≡◌, ℕ, ◌+◌, ◌<◌, ◌≤◌, [], Ok, Err, None, OnOk, IfOk, length, take, slice_index_or, count_by, ◌==◌};
ghost use Rattle.wire_instances.specs.declared.plan.Made.{Made as MadeOf};
ghost use Rattle.wire_instances.specs.declared.plan.Line.{Line as LineOf};
ghost use Rattle.wire_instances.specs.declared.naming.Stop.{Stop as StopOf};
ghost use Rattle.wire_instances.specs.Instances.{lines_of, specified, permitted, named, created, instances_of, IsRefusal, Enough, all_levels};

use crate::naming::{Naming, Stop, asks, has_instance};
use crate::plan::{Line, Made, Maker, Plan, Unmet};
use nm_base::{MAX_INSTANCES, Pos};
use std::alloc::Global;

fn lines_of(plans: &[Plan], component: usize) -> &[Line]
    ensures { result.now ≡ lines_of plans.now component }
{
    match plans.get(component) {
        Some(plan) => plan.lines.as_slice(),
        None => &[],
    }
}

fn specified(plans: &[Plan], component: usize) -> Result<(), Stop>
    ensures { result ≡ specified plans.now component }
{
    match plans.get(component) {
        Some(plan) => match plan.refused {
            Some(unmet) => Err(Stop::Unmet(unmet)),
            None => Ok(()),
        },
        None => Ok(()),
    }
}

fn permitted(plans: &[Plan], component: usize, pos: Pos) -> Result<(), Stop>
    ensures { result ≡ permitted plans.now component pos }
{
    match plans.get(component) {
        Some(plan) => match plan.generic {
            Some(_) => Err(Stop::Unmet(Unmet::ArgumentMismatch(pos))),
            None => Ok(()),
        },
        None => Ok(()),
    }
}

fn copies(made: &[Made], component: usize) -> usize
    ensures { result ≡ count_by (λ (m : MadeOf). m.component == component) made.now }
{
    made.iter().filter(|m| m.component == component).count()
}

// Gives the line at place `at` of instance `number` its instance.
#[cycle(creation)]
fn name(
    plans: &[Plan],
    around: &mut Vec<usize>,
    lines: &[Line],
    at: usize,
    number: usize,
    made: &mut Vec<Made>,
) -> Result<(), Stop>
    requires { at < length lines.now }
    ensures named { (levels : ℕ) (r : LineOf) → Enough levels made.old.items → OnOk result (named (created levels plans.now) plans.now around.old.items number at (slice_index_or lines.now at r) made.old.items ≡ Ok made.new.items) }
    ensures refused { (levels : ℕ) (r : LineOf) (stop : StopOf) → Enough levels made.old.items → result ≡ Err stop → IsRefusal stop → named (created levels plans.now) plans.now around.old.items number at (slice_index_or lines.now at r) made.old.items ≡ Err stop }
    ensures around { OnOk result (around.new.items ≡ around.old.items) }
    ensures grows { OnOk result (length made.old.items ≤ length made.new.items) }
{
    match asks(plans, around.as_slice(), &lines[at], made.as_slice())? {
        Naming::Has => Ok(()),
        Naming::New(component) => {
            let maker = Maker {
                instance: number,
                line: at,
            };
            create(plans, around, component, Some(maker), made)
        }
    }
}

// Creates an instance of the component, with all that its lines ask for.
#[cycle(creation)]
fn create(
    plans: &[Plan],
    around: &mut Vec<usize>,
    component: usize,
    maker: Option<Maker>,
    made: &mut Vec<Made>,
) -> Result<(), Stop>
    ensures created { (levels : ℕ) → Enough levels made.old.items → OnOk result (created levels plans.now around.old.items component maker made.old.items ≡ Ok made.new.items) }
    ensures refused { (levels : ℕ) (stop : StopOf) → Enough levels made.old.items → result ≡ Err stop → IsRefusal stop → created levels plans.now around.old.items component maker made.old.items ≡ Err stop }
    ensures around { OnOk result (around.new.items ≡ around.old.items) }
    ensures grows { OnOk result (length made.old.items < length made.new.items) }
{
    let number = made.len();
    if number >= MAX_INSTANCES as usize {
        return Err(Stop::Instances);
    }
    specified(plans, component)?;
    let copy = copies(made.as_slice(), component);
    made.push(Made {
        component,
        copy,
        maker,
    })?;
    around.push(component)?;
    let lines = lines_of(plans, component);
    let mut at = 0;
    while at < lines.len() {
        name(plans, around, lines, at, number, made)?;
        at += 1;
    }
    around.pop();
    Ok(())
}

// Creates an instance that no line asks for.
fn create_alone(
    alloc: Global,
    plans: &[Plan],
    component: usize,
    made: &mut Vec<Made>,
) -> Result<(), Stop>
    ensures created { OnOk result (created all_levels plans.now [] component None made.old.items ≡ Ok made.new.items) }
    ensures refused { (stop : StopOf) → result ≡ Err stop → IsRefusal stop → created all_levels plans.now [] component None made.old.items ≡ Err stop }
{
    let mut around = Vec::new(alloc);
    create(plans, &mut around, component, None, made)
}

/// The instances of the application, in the order of their creation; `pos` is the place of its name. The component `main` is
/// created last where no component names it. Refuses at the first place in the order of creation.
pub fn instances(
    alloc: Global,
    plans: &[Plan],
    app: usize,
    pos: Pos,
    main: usize,
) -> Result<Vec<Made>, Stop>
    ensures instances { IfOk result (λ made. instances_of plans.now app pos main ≡ Ok made.items) }
    ensures refused { (stop : StopOf) → result ≡ Err stop → IsRefusal stop → instances_of plans.now app pos main ≡ Err stop }
{
    permitted(plans, app, pos)?;
    let mut made = Vec::new(alloc);
    create_alone(alloc, plans, app, &mut made)?;
    if !has_instance(made.as_slice(), main) {
        create_alone(alloc, plans, main, &mut made)?;
    }
    Ok(made)
}
