//! Places whose parts are evaluated.

ghost use Rattle.core_act.specs.Scopes.{IsHeld, program_in, types_in, size_at, type_at};
ghost use Rattle.core_act.specs.Told.{Comes, LiesWithin};
ghost use Rattle.core_meaning.specs.Act.{element};
ghost use Rattle.core_meaning.specs.Layout.{object_address, size_of};
ghost use Rattle.core_meaning.specs.Work as work;
ghost use Rattle.core_meaning.specs.Work.{Locals};
ghost use Rattle.core_meaning.specs.declared.access.Where.TheVariants as Where;
ghost use Rattle.nesc_core.specs.Parts as parts;
ghost use Rattle.nesc_core.specs.Plain as plain;
ghost use Rattle.nesc_core.specs.PlaceTypes as types;
ghost use Rattle.nesc_core.specs.Size.{AreSized, IsSized, layout_of};
ghost use Rattle.nesc_core.specs.PlaceTypes.{type_in};
ghost use Rattle.nesc_core.specs.View.{expr_of, object_of, place_of, structs_of, type_of};
ghost use Rattle.std.specs.Prelude.{◌≡◌, ◌<◌, ◌+◌, IfOk, OnOk, if◌then◌else◌, length, map, option_copied, slice_get, slice_index_or, unsigned_abs};

use crate::access::{Local, load, moved, number_of, store};
use crate::log::{Log, fail};
use crate::scope::Scope;
use core_meaning::Where;
use nesc_core::{CoreType, Place, Program, Structs, field_offset, is_part, place_type, size};
use nm_base::{IntType, NoMemory, wrap};

/// Where object k lies.
pub(crate) fn object(p: &Program, k: u32) -> Where
    ensures { result ≡ Where.At (object_address (slice_get (map object_of p.now.objects) k)) }
{
    match p.objects.as_slice().get(k as usize) {
        None => Where::At(0),
        Some(o) => Where::At(o.addr),
    }
}

/// Local x.
pub(crate) fn local(scope: &Scope<'_>, x: u32) -> Where
    requires { IsHeld scope.now }
    ensures is { result ≡ Where.Within x 0 }
    ensures lies { LiesWithin (size_of (program_in scope.now) (slice_index_or (types_in scope.now) x plain.void) + 2) result }
{
    Where::Within(x, 0)
}

/// What a pointer to a part of this type points to.
pub(crate) fn pointed(
    scope: &Scope<'_>,
    t: &CoreType,
    pointer: i64,
    log: &mut Log<'_>,
) -> Result<Where, NoMemory>
    requires held { IsHeld scope.now }
    requires sized { IsSized (program_in scope.now).structs (type_of t.now) }
    requires some { 0 < (layout_of (program_in scope.now).structs (type_of t.now)).size }
    ensures comes { IfOk result (λ w. (locals : Locals) → Comes (if parts.is_part (program_in scope.now) (type_of t.now) (unsigned_abs pointer) then work.give (Where.At (unsigned_abs pointer)) else work.fault 2) log.old locals w log.new locals) }
    ensures lies { IfOk result (λ w. (n : _) → LiesWithin n w) }
{
    let address = pointer.unsigned_abs();
    if is_part(scope.alloc, scope.program, t, address)? {
        Ok(Where::At(address as u16))
    } else {
        fail(log, 2)?;
        Ok(Where::At(0))
    }
}

// How many elements there are, and the size of one.
fn elements(s: &Structs, t: Option<&CoreType>) -> (u32, u32)
    requires structs { AreSized (structs_of s.now) }
    requires sized { IsSized (structs_of s.now) (type_in (option_copied t)) }
    ensures { result ≡ (types.count_of (type_in (option_copied t.entry)), (layout_of (structs_of s.now) (types.element_of (type_in (option_copied t.entry)))).size) }
{
    match t {
        Some(CoreType::Array(element, count)) => (*count, size(s, element)),
        Some(CoreType::Void) | Some(CoreType::Int(_)) | Some(CoreType::Pointer(_)) => (0, 0),
        Some(CoreType::Struct(_)) | None => (0, 0),
    }
}

/// Element i of an array.
pub(crate) fn indexed(
    scope: &Scope<'_>,
    array: &Place,
    w: Where,
    i: i64,
    log: &mut Log<'_>,
) -> Result<Where, NoMemory>
    requires held { IsHeld scope.now }
    requires sized { IsSized (program_in scope.now).structs (type_at scope.now (place_of array.now)) }
    requires lies { LiesWithin (size_at scope.now (place_of array.now) + 2) w }
    ensures comes { IfOk result (λ x. (locals : Locals) → Comes (element (types.count_of (type_at scope.now (place_of array.now))) (size_of (program_in scope.now) (types.element_of (type_at scope.now (place_of array.now)))) w i) log.old locals x log.new locals) }
    ensures lies { IfOk result (λ x. LiesWithin (size_of (program_in scope.now) (types.element_of (type_at scope.now (place_of array.now))) + 2) x) }
{
    let (count, size) = elements(
        &scope.program.structs,
        place_type(scope.program, scope.types, array),
    );
    if i < 0 || i >= i64::from(count) {
        fail(log, 1)?;
        return Ok(Where::At(0));
    }
    Ok(moved(w, i as u32 * size))
}

/// Field k of a struct.
pub(crate) fn field(scope: &Scope<'_>, base: &Place, w: Where, k: u32) -> Where
    requires held { IsHeld scope.now }
    requires sized { IsSized (program_in scope.now).structs (type_at scope.now (place_of base.now)) }
    requires inside { k < length (types.fields_of (program_in scope.now).structs (type_at scope.now (place_of base.now))) }
    requires lies { LiesWithin (size_at scope.now (place_of base.now) + 2) w }
    ensures is { result ≡ work.moved w (types.field_offset (program_in scope.now).structs (type_at scope.now (place_of base.now)) k) }
    ensures lies { LiesWithin (size_at scope.now (plain.field (place_of base.now) k) + 2) result }
{
    match place_type(scope.program, scope.types, base) {
        None => w,
        Some(t) => moved(w, field_offset(&scope.program.structs, t, k)),
    }
}

/// The value of a place.
pub(crate) fn load_at(
    scope: &Scope<'_>,
    place: &Place,
    w: Where,
    locals: &[Local],
    log: &mut Log<'_>,
) -> Result<i64, NoMemory>
    requires { LiesWithin (size_at scope.now (place_of place.now) + 2) w }
    ensures { IfOk result (λ v. Comes (work.load (type_at scope.now (place_of place.now)) w) log.old locals.now v log.new locals.now) }
{
    load(
        place_type(scope.program, scope.types, place),
        w,
        locals,
        log,
    )
}

/// Stores a value in a place.
pub(crate) fn store_at(
    scope: &Scope<'_>,
    place: &Place,
    w: Where,
    v: i64,
    locals: &mut [Local],
    log: &mut Log<'_>,
) -> Result<(), NoMemory>
    requires { LiesWithin (size_at scope.now (place_of place.now) + 2) w }
    ensures { OnOk result (Comes (work.store (type_at scope.now (place_of place.now)) w v) log.old locals.old tt log.new locals.new) }
{
    store(
        place_type(scope.program, scope.types, place),
        w,
        v,
        locals,
        log,
    )
}

/// As which integer the value of a place is held.
pub(crate) fn number_at(scope: &Scope<'_>, place: &Place) -> IntType
    ensures { result ≡ work.number_of (type_at scope.now (place_of place.now)) }
{
    number_of(place_type(scope.program, scope.types, place))
}
