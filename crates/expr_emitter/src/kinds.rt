//! Where places are: in the values of a local, in the frame, or in memory.

ghost use Rattle.std.specs.Prelude.{◌≡◌, slice_get};
ghost use Rattle.expr_emitter.specs.Kinds.{kind_seen};
ghost use Rattle.expr_emitter.specs.Scoped.{kind_in};
ghost use Rattle.lower_expr.specs.Code as spec;
ghost use Rattle.nesc_core.specs.View.{place_of};

use crate::scope::Scope;
use lower_expr::{Regs, Spot};
use nesc_core::Place;

/// Where a place is.
#[derive(Clone, Copy)]
pub(crate) enum Kind {
    Values(Regs),
    Frame,
    Memory,
}

// Where local x is.
fn kind_of_local(spots: &[Spot], x: u32) -> Kind
    ensures { kind_seen result ≡ spec.kind_of_spot (slice_get spots.now x) }
{
    match spots.get(x as usize) {
        None => Kind::Frame,
        Some(Spot::Values(regs)) => Kind::Values(*regs),
        Some(Spot::Frame(_)) => Kind::Frame,
    }
}

/// Where a place is.
pub(crate) fn kind_of(scope: &Scope, place: &Place) -> Kind
    ensures { kind_seen result ≡ kind_in scope.now (place_of place.now) }
{
    match place {
        Place::Object(_) => Kind::Memory,
        Place::Local(x) => kind_of_local(scope.spots, *x),
        Place::Deref(_, _) => Kind::Memory,
        Place::Index(base, _) => kind_of(scope, base),
        Place::Field(base, _) => kind_of(scope, base),
    }
}

/// The value of one half, or 0 where there is none.
pub(crate) fn value_named(v: Option<u32>) -> u32
    ensures { result ≡ spec.value_named v }
{
    match v {
        None => 0,
        Some(v) => v,
    }
}
