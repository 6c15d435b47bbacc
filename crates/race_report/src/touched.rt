//! The objects that handlers touch.

ghost use Rattle.std.specs.Prelude.{◌≡◌, ◌<◌, ◌^◌, IfOk, None, length, map, replicate};
ghost use Rattle.std.specs.List.{list_any};
ghost use Rattle.nesc_core.specs.Parts.{same_type};
ghost use Rattle.nesc_core.specs.Size.{AreSized};
ghost use Rattle.nesc_core.specs.View.{program_of, structs_of, type_of};
ghost use Rattle.call_graph.specs.View.{use_of};
ghost use Rattle.race_checker.specs.Computed as computed;
ghost use Rattle.race_checker.specs.Computed.{touches_in};
ghost use Rattle.race_report.specs.Firsts as spec;
ghost use Rattle.race_report.specs.Firsts.{AreFirsts, Touches};
ghost use Rattle.race_report.specs.Known.{body_uses};
ghost use Rattle.race_report.specs.Starts.{is_pointed, may_be, start_of};

use crate::bodies::{is_past, uses_at};
use crate::pointed::pointed_objects;
use crate::roots::{Root, root_of};
use call_graph::Use;
use nesc_core::{CoreType, Program, is_same_type};
use nm_base::{List, NoMemory};
use std::alloc::Global;

/// By object the first body that touches it, and the types to which pointers were followed so far.
#[derive(Drop)]
pub(crate) struct Touched<'a> {
    pub first: Vec<Option<u32>>,
    pub followed: Vec<&'a CoreType>,
}

// Whether there is such an object and no body touched it so far.
fn is_untouched(firsts: &[Option<u32>], x: u32) -> bool
    ensures { result ≡ spec.is_untouched firsts.now x }
{
    match firsts.get(x as usize) {
        Some(first) => first.is_none(),
        None => false,
    }
}

fn touch(firsts: &mut Vec<Option<u32>>, x: u32, f: u32)
    ensures { firsts.new.items ≡ spec.with_first f firsts.old.items x }
{
    if is_untouched(firsts, x) {
        firsts[x as usize] = Some(f);
    }
}

#[tactic(auto, using(crate::proofs::FirstLemmas::steps))]
fn touch_all(firsts: &mut Vec<Option<u32>>, objects: &[u32], f: u32)
    ensures { firsts.new.items ≡ spec.with_firsts f firsts.old.items objects.now }
{
    for x in objects {
        touch(firsts, *x, f);
    }
}

#[tactic(auto, using(crate::proofs::FirstLemmas::steps))]
fn is_followed(followed: &[&CoreType], t: &CoreType) -> bool
    ensures { result ≡ list_any (λ u. same_type (type_of u.now) (type_of t.now)) followed.now }
{
    for u in followed {
        if is_same_type(u, t) {
            return true;
        }
    }
    false
}

// All objects at which a pointer to this type may point, the first time that one is followed.
fn touch_pointed<'a>(
    alloc: Global,
    p: &Program,
    touched: &mut Touched<'a>,
    t: &'a CoreType,
    f: u32,
) -> Result<(), NoMemory>
    requires sized { AreSized (structs_of p.now.structs) }
    requires objects { length p.now.objects < 2 ^ 32 }
    ensures { IfOk result (λ _. Touches (program_of p.now) f (is_pointed (program_of p.now) (type_of t.now)) touched.old touched.new) }
{
    if is_followed(&touched.followed, t) {
        return Ok(());
    }
    let objects = pointed_objects(alloc, p, t)?;
    touch_all(&mut touched.first, &objects, f);
    touched.followed.push(t)?;
    Ok(())
}

fn touch_root<'a>(
    alloc: Global,
    p: &Program,
    touched: &mut Touched<'a>,
    root: Root<'a>,
    f: u32,
) -> Result<(), NoMemory>
    requires sized { AreSized (structs_of p.now.structs) }
    requires objects { length p.now.objects < 2 ^ 32 }
    ensures { IfOk result (λ _. Touches (program_of p.now) f (may_be (program_of p.now) (start_of root.entry)) touched.old touched.new) }
{
    match root {
        Root::Object(x) => {
            touch(&mut touched.first, x, f);
            Ok(())
        }
        Root::Local => Ok(()),
        Root::Pointed(t) => touch_pointed(alloc, p, touched, t, f),
    }
}

fn touch_use<'a>(
    alloc: Global,
    p: &Program,
    touched: &mut Touched<'a>,
    u: &Use<'a>,
    f: u32,
) -> Result<(), NoMemory>
    requires sized { AreSized (structs_of p.now.structs) }
    requires objects { length p.now.objects < 2 ^ 32 }
    ensures { IfOk result (λ _. Touches (program_of p.now) f (λ x. computed.is_touching (program_of p.now) x (use_of u.now)) touched.old touched.new) }
{
    match *u {
        Use::Access { place, .. } => touch_root(alloc, p, touched, root_of(place), f),
        Use::Call { .. } => Ok(()),
    }
}

fn touch_uses<'a>(
    alloc: Global,
    p: &Program,
    touched: &mut Touched<'a>,
    uses: &[Use<'a>],
    f: u32,
) -> Result<(), NoMemory>
    requires sized { AreSized (structs_of p.now.structs) }
    requires objects { length p.now.objects < 2 ^ 32 }
    ensures { IfOk result (λ _. Touches (program_of p.now) f (λ x. list_any (computed.is_touching (program_of p.now) x) (map use_of uses.now)) touched.old touched.new) }
{
    for u in uses {
        touch_use(alloc, p, touched, u, f)?;
    }
    Ok(())
}

fn touch_body<'a>(
    alloc: Global,
    p: &Program,
    touched: &mut Touched<'a>,
    uses: &[List<Use<'a>>],
    f: u32,
) -> Result<(), NoMemory>
    requires sized { AreSized (structs_of p.now.structs) }
    requires objects { length p.now.objects < 2 ^ 32 }
    requires uses { map (map use_of) uses.now ≡ map body_uses (program_of p.now).bodies }
    ensures { IfOk result (λ _. Touches (program_of p.now) f (λ x. touches_in (program_of p.now) x f) touched.old touched.new) }
{
    if is_past(uses, f) {
        return Ok(());
    }
    touch_uses(alloc, p, touched, uses_at(uses, f), f)
}

fn none_touched(alloc: Global, count: usize) -> Result<Vec<Option<u32>>, NoMemory>
    ensures { IfOk result (λ v. v.items ≡ replicate count None) }
{
    Ok(vec![in alloc; None; count]?)
}

/// By object the first of these bodies that touches it. Each type to which their pointers point costs time linear in the fields
/// of all structs and the objects, and each access that it is looked for among those types.
pub(crate) fn first_bodies<'a>(
    alloc: Global,
    p: &Program,
    uses: &[List<Use<'a>>],
    order: &[u32],
) -> Result<Vec<Option<u32>>, NoMemory>
    requires sized { AreSized (structs_of p.now.structs) }
    requires objects { length p.now.objects < 2 ^ 32 }
    requires uses { map (map use_of) uses.now ≡ map body_uses (program_of p.now).bodies }
    ensures { IfOk result (λ v. AreFirsts (program_of p.now) order.now v.items) }
{
    let mut touched = Touched {
        first: none_touched(alloc, p.objects.as_slice().len())?,
        followed: Vec::new(alloc),
    };
    for f in order {
        touch_body(alloc, p, &mut touched, uses, *f)?;
    }
    Ok(touched.first)
}
