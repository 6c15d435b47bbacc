//! The shared objects at which pointers may point, by the pointers' type.

ghost use Rattle.std.specs.Prelude.{◌≡◌, ◌<◌, ◌^◌, IfOk, length, option_map};
ghost use Rattle.std.specs.List.{filter};
ghost use Rattle.nesc_core.specs.View.{program_of, type_of};
ghost use Rattle.race_report.specs.Kinds as spec;
ghost use Rattle.race_report.specs.Kinds.{objects_in};
ghost use Rattle.race_report.specs.Known.{IsKnown};

use crate::paths::first_body;
use crate::pointed::{pointed_objects, push_if};
use crate::sources::Sources;
use nesc_core::{CoreType, is_same_type};
use nm_base::{List, NoMemory};
use std::alloc::Global;

/// A type to which a pointer was followed, and the objects with a part of it that are taken and shared.
#[derive(Drop)]
pub(crate) struct Kind<'a> {
    pub ty: &'a CoreType,
    pub objects: List<u32>,
}

/// The objects of this type's kind, if it is among these.
#[tactic(auto, using(crate::proofs::KindLemmas::steps))]
pub(crate) fn known<'k>(kinds: &'k [Kind], t: &CoreType) -> Option<&'k [u32]>
    ensures { option_map (λ l. l.now) result ≡ objects_in kinds.now (type_of t.now) }
{
    for kind in kinds {
        if is_same_type(kind.ty, t) {
            return Some(kind.objects.as_slice());
        }
    }
    None
}

fn is_shared(s: &Sources, x: u32) -> bool
    requires { IsKnown s.now }
    ensures { result ≡ spec.is_shared (program_of s.now.p.now) s.now.handlers.order.items x }
{
    first_body(s, x).is_some()
}

#[tactic(auto, using(crate::proofs::KindLemmas::steps))]
fn shared_among(alloc: Global, s: &Sources, objects: &[u32]) -> Result<Vec<u32>, NoMemory>
    requires { IsKnown s.now }
    ensures { IfOk result (λ v. v.items ≡ filter (spec.is_shared (program_of s.now.p.now) s.now.handlers.order.items) objects.now) }
{
    let mut shared = Vec::new(alloc);
    for x in objects {
        push_if(&mut shared, *x, is_shared(s, *x))?;
    }
    Ok(shared)
}

/// The objects of this type's kind.
pub(crate) fn shared_objects(alloc: Global, s: &Sources, t: &CoreType) -> Result<Vec<u32>, NoMemory>
    requires known { IsKnown s.now }
    requires objects { length s.now.p.now.objects < 2 ^ 32 }
    ensures { IfOk result (λ v. v.items ≡ spec.shared_objects (program_of s.now.p.now) s.now.handlers.order.items (type_of t.now)) }
{
    let objects = pointed_objects(alloc, s.p, t)?;
    shared_among(alloc, s, &objects)
}
