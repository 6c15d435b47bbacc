//! The objects at which pointers may point.

ghost use Rattle.std.specs.Prelude.{◌≡◌, ◌<◌, ◌^◌, ◌++◌, [], ◌∷◌, ◌&&◌, if◌then◌else◌, IfOk, map, length, slice_get};
ghost use Rattle.std.specs.List.{list_any};
ghost use Rattle.nesc_core.specs.Parts.{parts_of_object, same_type};
ghost use Rattle.nesc_core.specs.Size.{AreSized};
ghost use Rattle.nesc_core.specs.View.{object_of, program_of, structs_of, type_of};
ghost use Rattle.race_checker.specs.Report as spec;
ghost use Rattle.race_report.specs.Parts.{AreMarked};
ghost use Rattle.race_report.specs.Starts.{pointed};

use crate::parts::{has_part, structs_with};
use nesc_core::{CoreType, Object, Program, Structs};
use nm_base::NoMemory;
use std::alloc::Global;

fn holds_part(inside: &[bool], s: &Structs, t: &CoreType, o: &Object) -> bool
    requires { AreMarked (structs_of s.now) (type_of t.now) inside.now }
    ensures { result ≡ list_any (λ q. same_type q.ty (type_of t.now)) (parts_of_object (structs_of s.now) (object_of o.now)) }
{
    has_part(inside, &o.ty, t)
}

fn points_at(inside: &[bool], s: &Structs, t: &CoreType, o: &Object) -> bool
    requires { AreMarked (structs_of s.now) (type_of t.now) inside.now }
    ensures { result ≡ (o.now.taken && list_any (λ q. same_type q.ty (type_of t.now)) (parts_of_object (structs_of s.now) (object_of o.now))) }
{
    if o.taken {
        holds_part(inside, s, t, o)
    } else {
        false
    }
}

fn is_pointed_at(inside: &[bool], p: &Program, t: &CoreType, x: u32) -> bool
    requires { AreMarked (structs_of p.now.structs) (type_of t.now) inside.now }
    ensures { result ≡ spec.is_pointed_at (program_of p.now) (type_of t.now) (slice_get (map object_of p.now.objects) x) }
{
    match p.objects.as_slice().get(x as usize) {
        Some(o) => points_at(inside, &p.structs, t, o),
        None => false,
    }
}

/// The number at the end, if it is one of those that are sought.
pub(crate) fn push_if(numbers: &mut Vec<u32>, x: u32, is_one: bool) -> Result<(), NoMemory>
    ensures { IfOk result (λ _. numbers.new.items ≡ numbers.old.items ++ (if is_one then x ∷ [] else [])) }
{
    if is_one {
        numbers.push(x)?;
    }
    Ok(())
}

/// All objects at which a pointer to values of this type may point, in order: those whose address is taken and that have a
/// part of the type. In time linear in the fields of all structs and the objects.
pub(crate) fn pointed_objects(
    alloc: Global,
    p: &Program,
    t: &CoreType,
) -> Result<Vec<u32>, NoMemory>
    requires sized { AreSized (structs_of p.now.structs) }
    requires objects { length p.now.objects < 2 ^ 32 }
    ensures { IfOk result (λ v. v.items ≡ pointed (program_of p.now) (type_of t.now)) }
{
    let inside = structs_with(alloc, &p.structs, t)?;
    let mut objects = Vec::new(alloc);
    for x in 0..p.objects.as_slice().len() {
        push_if(
            &mut objects,
            x as u32,
            is_pointed_at(&inside, p, t, x as u32),
        )?;
    }
    Ok(objects)
}
