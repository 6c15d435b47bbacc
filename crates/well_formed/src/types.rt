//! Which types are those of a program.

ghost use Rattle.std.specs.Prelude.{◌≡◌, ◌<◌, ◌≤◌, IfSome, true};
ghost use Rattle.nesc_core.specs.Plain.{pointer};
ghost use Rattle.nesc_core.specs.Size.{IsSized, layout_of};
ghost use Rattle.nesc_core.specs.Typing.{IsResult, IsScalar, IsType, PointsWell};
ghost use Rattle.nesc_core.specs.View.{structs_of, type_of};
ghost use Rattle.well_formed.specs.Laid.{AreLaid};

use crate::layouts::layout_among;
use nesc_core::{CoreType, Layout, Structs};

/// Whether the type is that of a number or a pointer.
pub(crate) fn is_scalar(t: &CoreType) -> bool
    ensures { result ≡ true → IsScalar (type_of t.now) }
{
    match t {
        CoreType::Int(_) | CoreType::Pointer(_) => true,
        CoreType::Void | CoreType::Array(_, _) | CoreType::Struct(_) => false,
    }
}

/// Whether the type is one that a call may have.
pub(crate) fn is_result(t: &CoreType) -> bool
    ensures { result ≡ true → IsResult (type_of t.now) }
{
    match t {
        CoreType::Void | CoreType::Int(_) | CoreType::Pointer(_) => true,
        CoreType::Array(_, _) | CoreType::Struct(_) => false,
    }
}

/// How a value of the type lies in memory; None where a struct in it is not there, and where it or an array in it is too large.
#[tactic(auto, using(crate::proofs::Sized::of_laid))]
pub(crate) fn layout(s: &Structs, layouts: &[Layout], t: &CoreType) -> Option<Layout>
    requires { AreLaid (structs_of s.now) layouts.now }
    ensures sized { IfSome result (λ _. IsSized (structs_of s.now) (type_of t.now)) }
    ensures layout { IfSome result (λ l. l ≡ layout_of (structs_of s.now) (type_of t.now)) }
    ensures small { IfSome result (λ l. l.size ≤ 32767) }
{
    let found = layout_among(layouts, t)?;
    Some(found)
}

/// The size of a type in bytes; None where a struct in it is not there, and where it or an array in it is too large.
pub(crate) fn size(s: &Structs, layouts: &[Layout], t: &CoreType) -> Option<u32>
    requires { AreLaid (structs_of s.now) layouts.now }
    ensures sized { IfSome result (λ _. IsSized (structs_of s.now) (type_of t.now)) }
    ensures size { IfSome result (λ n. n ≡ (layout_of (structs_of s.now) (type_of t.now)).size) }
    ensures small { IfSome result (λ n. n ≤ 32767) }
{
    let found = layout(s, layouts, t)?;
    Some(found.size)
}

// Whether the type is sized, and takes some byte.
fn has_bytes(s: &Structs, layouts: &[Layout], t: &CoreType) -> bool
    requires { AreLaid (structs_of s.now) layouts.now }
    ensures sized { result ≡ true → IsSized (structs_of s.now) (type_of t.now) }
    ensures bytes { result ≡ true → 0 < (layout_of (structs_of s.now) (type_of t.now)).size }
{
    match size(s, layouts, t) {
        Some(bytes) => 0 < bytes,
        None => false,
    }
}

/// Whether all that the type's pointers point to is sized, and takes some byte.
pub(crate) fn points_well(s: &Structs, layouts: &[Layout], t: &CoreType) -> bool
    requires { AreLaid (structs_of s.now) layouts.now }
    ensures { result ≡ true → PointsWell (structs_of s.now) (type_of t.now) }
{
    match t {
        CoreType::Void | CoreType::Int(_) | CoreType::Struct(_) => true,
        CoreType::Pointer(to) => has_bytes(s, layouts, to) && points_well(s, layouts, to),
        CoreType::Array(element, _) => points_well(s, layouts, element),
    }
}

/// Whether pointers may point to values of the type.
pub(crate) fn is_pointed(s: &Structs, layouts: &[Layout], t: &CoreType) -> bool
    requires { AreLaid (structs_of s.now) layouts.now }
    ensures { result ≡ true → PointsWell (structs_of s.now) (pointer (type_of t.now)) }
{
    has_bytes(s, layouts, t) && points_well(s, layouts, t)
}

/// Whether the type is one of a program with these structs.
pub(crate) fn is_type(s: &Structs, layouts: &[Layout], t: &CoreType) -> bool
    requires { AreLaid (structs_of s.now) layouts.now }
    ensures { result ≡ true → IsType (structs_of s.now) (type_of t.now) }
{
    layout(s, layouts, t).is_some() && points_well(s, layouts, t)
}
