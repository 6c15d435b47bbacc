//! The types of values that are no arrays and no structs.

ghost use Rattle.std.specs.Prelude.{◌≡◌, IfSome, true, option_copied};
ghost use Rattle.nesc_core.specs.PlaceTypes.{type_in};
ghost use Rattle.nesc_core.specs.View.{type_of};
ghost use Rattle.well_formed.specs.Kinds.{type_of_kind};

use nesc_core::{CoreType, is_same_type};
use nm_base::IntType;

/// A type that an expression may have: none, a number, or a pointer to values of a type.
#[derive(Clone, Copy)]
pub(crate) enum Kind<'a> {
    Void,
    Int(IntType),
    Pointer(&'a CoreType),
}

/// The type as a kind; None where there is none, and at arrays and structs.
pub(crate) fn kind_of(t: Option<&CoreType>) -> Option<Kind>
    ensures { IfSome result (λ k. type_of_kind k ≡ type_in (option_copied t.entry)) }
{
    match t? {
        CoreType::Void => Some(Kind::Void),
        CoreType::Int(int) => Some(Kind::Int(*int)),
        CoreType::Pointer(to) => Some(Kind::Pointer(to)),
        CoreType::Array(_, _) | CoreType::Struct(_) => None,
    }
}

/// Whether both are the same type.
#[tactic(auto, using(crate::proofs::Same::same_type_is))]
pub(crate) fn is_same(a: Kind, b: Kind) -> bool
    ensures { result ≡ true → type_of_kind a.entry ≡ type_of_kind b.entry }
{
    match a {
        Kind::Void => matches!(b, Kind::Void),
        Kind::Int(t) => match b {
            Kind::Int(u) => t == u,
            Kind::Void | Kind::Pointer(_) => false,
        },
        Kind::Pointer(t) => match b {
            Kind::Pointer(u) => is_same_type(t, u),
            Kind::Void | Kind::Int(_) => false,
        },
    }
}
