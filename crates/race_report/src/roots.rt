//! What the place of an access begins with.

ghost use Rattle.std.specs.Prelude.{◌≡◌};
ghost use Rattle.nesc_core.specs.View.{place_of};
ghost use Rattle.race_report.specs.Starts.{start, start_of};

use nesc_core::{CoreType, Place};

/// An object, a local variable, or what a pointer to values of this type points at.
#[derive(Clone, Copy)]
pub(crate) enum Root<'a> {
    Object(u32),
    Local,
    Pointed(&'a CoreType),
}

/// What the place begins with, whichever element or field of it is meant.
pub(crate) fn root_of(place: &Place) -> Root<'_>
    ensures { start_of result ≡ start (place_of place.now) }
{
    match place {
        Place::Object(k) => Root::Object(*k),
        Place::Local(_) => Root::Local,
        Place::Deref(_, t) => Root::Pointed(t),
        Place::Index(base, _) => root_of(base),
        Place::Field(base, _) => root_of(base),
    }
}
