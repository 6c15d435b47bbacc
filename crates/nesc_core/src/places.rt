//! The types of places, where fields lie, and whether a pointer points to a part.

ghost use Rattle.std.specs.Prelude.{◌≡◌, ◌<◌, IfOk, All, map, length, slice_get, option_copied};
ghost use Rattle.std.specs.List.{list_any};
ghost use Rattle.nesc_core.specs.Parts as parts;
ghost use Rattle.nesc_core.specs.Parts.{LiesWell, run_has, run_of};
ghost use Rattle.nesc_core.specs.Plain.{struct};
ghost use Rattle.nesc_core.specs.PlaceTypes as types_of_places;
ghost use Rattle.nesc_core.specs.PlaceTypes.{fields_of, type_in};
ghost use Rattle.nesc_core.specs.Size.{AreSized, IsSized, layout_of};
ghost use Rattle.nesc_core.specs.View.{field_of, object_of, place_of, program_of, structs_of, type_of};

use crate::layout::Layout;
use crate::runs::ranges;
use crate::sizes::{fields_of as struct_fields, round_up, size, type_layout};
use crate::tree::{CoreType, Field, Place, Program, Structs};
use nm_base::{List, NoMemory};
use std::alloc::Global;

/// The type of a place in a body with these types of locals; None where it names no variable, element or field.
pub fn place_type<'a>(
    p: &'a Program,
    types: &'a [CoreType],
    place: &'a Place,
) -> Option<&'a CoreType>
    ensures { type_in (option_copied result) ≡ types_of_places.place_type (program_of p.now) (map type_of types.now) (place_of place.now) }
{
    match place {
        Place::Object(k) => object_type(p, *k),
        Place::Local(x) => types.get(*x as usize),
        Place::Deref(_, t) => Some(t),
        Place::Index(base, _) => element_of(place_type(p, types, base)),
        Place::Field(base, k) => field_type(&p.structs, place_type(p, types, base), *k),
    }
}

fn object_type(p: &Program, k: u32) -> Option<&CoreType>
    ensures { type_in (option_copied result) ≡ types_of_places.object_type (slice_get (map object_of p.now.objects) k) }
{
    let o = p.objects.as_slice().get(k as usize)?;
    Some(&o.ty)
}

/// The type of an array's elements; None at no type and at a type that is no array.
pub fn element_of(t: Option<&CoreType>) -> Option<&CoreType>
    ensures { type_in (option_copied result) ≡ types_of_places.element_of (type_in (option_copied t.entry)) }
{
    match t? {
        CoreType::Array(element, _) => Some(element),
        CoreType::Void | CoreType::Int(_) | CoreType::Pointer(_) | CoreType::Struct(_) => None,
    }
}

/// The type of field `k` of a struct type; None at no type, at a type that is no struct, and where the struct has no such field.
pub fn field_type<'a>(s: &'a Structs, t: Option<&'a CoreType>, k: u32) -> Option<&'a CoreType>
    ensures { type_in (option_copied result) ≡ types_of_places.field_type (slice_get (fields_of (structs_of s.now) (type_in (option_copied t.entry))) k) }
{
    match t? {
        CoreType::Struct(n) => type_of_field(s.structs.as_slice().get(*n as usize)?, k),
        CoreType::Void | CoreType::Int(_) | CoreType::Pointer(_) | CoreType::Array(_, _) => None,
    }
}

fn type_of_field(fields: &List<Field>, k: u32) -> Option<&CoreType>
    ensures { type_in (option_copied result) ≡ types_of_places.field_type (slice_get (map field_of fields.now) k) }
{
    let field = fields.as_slice().get(k as usize)?;
    Some(&field.ty)
}

/// How far from its struct's address field `k` of a struct type lies.
pub fn field_offset(s: &Structs, t: &CoreType, k: u32) -> u32
    requires structs { AreSized (structs_of s.now) }
    requires sized { IsSized (structs_of s.now) (type_of t.now) }
    requires inside { k < length (fields_of (structs_of s.now) (type_of t.now)) }
    ensures { result ≡ types_of_places.field_offset (structs_of s.now) (type_of t.now) k }
{
    match t {
        CoreType::Struct(n) => offset_in(s, *n, k),
        CoreType::Void | CoreType::Int(_) | CoreType::Pointer(_) | CoreType::Array(_, _) => 0,
    }
}

// In struct n.
fn offset_in(s: &Structs, n: u32, k: u32) -> u32
    requires structs { AreSized (structs_of s.now) }
    requires known { n < length s.now.structs }
    requires inside { k < length (fields_of (structs_of s.now) (struct n)) }
    ensures { result ≡ types_of_places.field_offset (structs_of s.now) (struct n) k }
{
    let fields = struct_fields(s, n);
    let mut before = Layout { size: 0, align: 1 };
    for i in 0..k as usize {
        let f = type_layout(s, &fields[i].ty);
        before = Layout {
            size: round_up(before.size, f.align) + f.size,
            align: before.align.max(f.align),
        };
    }
    round_up(before.size, type_layout(s, &fields[k as usize].ty).align)
}

/// Whether a part of type `t` of an object whose address is taken stands at this address.
pub fn is_part(alloc: Global, p: &Program, t: &CoreType, address: u64) -> Result<bool, NoMemory>
    requires structs { AreSized (structs_of p.now.structs) }
    requires wanted { IsSized (structs_of p.now.structs) (type_of t.now) }
    requires some { 0 < (layout_of (structs_of p.now.structs) (type_of t.now)).size }
    requires objects { All (LiesWell (structs_of p.now.structs)) (map object_of p.now.objects) }
    ensures { IfOk result (λ found. found ≡ parts.is_part (program_of p.now) (type_of t.now) address) }
{
    let size = u64::from(size(&p.structs, t));
    let runs = ranges(alloc, p, t)?;
    Ok(any_has(size, address, &runs))
}

fn any_has(size: u64, address: u64, runs: &[(u16, u16)]) -> bool
    requires { 0 < size }
    ensures { result ≡ list_any (run_has size address) (map run_of runs.now) }
{
    for run in runs {
        if has(size, address, *run) {
            return true;
        }
    }
    false
}

// One of the run's parts, which have this size, stands at the address.
fn has(size: u64, address: u64, run: (u16, u16)) -> bool
    requires { 0 < size }
    ensures { result ≡ run_has size address (run_of run) }
{
    let first = u64::from(run.0);
    if address < first {
        return false;
    }
    let offset = address - first;
    offset % size == 0 && offset / size < u64::from(run.1)
}
