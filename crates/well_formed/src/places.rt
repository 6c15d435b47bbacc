//! The types of objects, locals, elements and fields.

ghost use Rattle.std.specs.Prelude.{◌≡◌, ◌<◌, IfSome, length, slice_get};
ghost use Rattle.nesc_core.specs.Plain.{struct};
ghost use Rattle.nesc_core.specs.Plain as plain;
ghost use Rattle.nesc_core.specs.PlaceTypes as types_of_places;
ghost use Rattle.nesc_core.specs.PlaceTypes.{field_type, fields_of};
ghost use Rattle.nesc_core.specs.Typing.{IsArray};
ghost use Rattle.nesc_core.specs.View.{structs_of, type_of};
ghost use Rattle.well_formed.specs.Scopes.{locals_in, program_in, type_at};

use crate::scope::Scope;
use nesc_core::{CoreType, Structs};

/// The type of a variable of the program.
pub(crate) fn object<'a>(scope: &Scope<'a>, k: u32) -> Option<&'a CoreType>
    ensures inside { IfSome result (λ _. k < length (program_in scope.now).objects) }
    ensures is { IfSome result (λ t. type_of t.now ≡ type_at scope.now (plain.object k)) }
{
    let o = scope.program.objects.as_slice().get(k as usize)?;
    Some(&o.ty)
}

/// The type of a variable of the body.
pub(crate) fn local<'a>(scope: &Scope<'a>, x: u32) -> Option<&'a CoreType>
    ensures inside { IfSome result (λ _. x < length (locals_in scope.now)) }
    ensures is { IfSome result (λ t. type_of t.now ≡ type_at scope.now (plain.local x)) }
{
    let t = scope.locals.get(x as usize)?;
    Some(t)
}

/// The type of an array's elements; None at a type that is no array.
pub(crate) fn element(t: &CoreType) -> Option<&CoreType>
    ensures array { IfSome result (λ _. IsArray (type_of t.now)) }
    ensures is { IfSome result (λ u. type_of u.now ≡ types_of_places.element_of (type_of t.now)) }
{
    match t {
        CoreType::Array(part, _) => Some(part),
        CoreType::Void | CoreType::Int(_) | CoreType::Pointer(_) | CoreType::Struct(_) => None,
    }
}

// Of field k of struct n.
fn struct_field(s: &Structs, n: u32, k: u32) -> Option<&CoreType>
    ensures inside { IfSome result (λ _. k < length (fields_of (structs_of s.now) (struct n))) }
    ensures is { IfSome result (λ u. type_of u.now ≡ field_type (slice_get (fields_of (structs_of s.now) (struct n)) k)) }
{
    let fields = s.structs.as_slice().get(n as usize)?;
    let field = fields.as_slice().get(k as usize)?;
    Some(&field.ty)
}

/// The type of a field; None at a type that is no struct, and where the struct has no such field.
pub(crate) fn field<'a>(s: &'a Structs, t: &CoreType, k: u32) -> Option<&'a CoreType>
    ensures inside { IfSome result (λ _. k < length (fields_of (structs_of s.now) (type_of t.now))) }
    ensures is { IfSome result (λ u. type_of u.now ≡ field_type (slice_get (fields_of (structs_of s.now) (type_of t.now)) k)) }
{
    match t {
        CoreType::Struct(n) => struct_field(s, *n, k),
        CoreType::Void | CoreType::Int(_) | CoreType::Pointer(_) | CoreType::Array(_, _) => None,
    }
}
