//! What the ends of a wire name.

ghost use Rattle.std.specs.Prelude.{◌≡◌};
ghost use Rattle.wire_names.specs.Places.{place_of};
ghost use Rattle.wire_pairs.specs.Ends as spec;
ghost use Rattle.wire_pairs.specs.Lookup.{app_of};

use crate::ends::{NamedEnd, Spot};
use crate::facts::Unlinked;
use crate::lookup::Lookup;
use crate::seen::element_named;
use nesc_tree::WireEnd;
use nm_base::{Name, Pos};
use wire_names::Places;

fn found(instance: usize, own: bool, pos: Pos, element: Option<usize>) -> Result<NamedEnd, Unlinked>
    ensures { result ≡ spec.found instance own pos element }
{
    match element {
        Some(element) => Ok(NamedEnd::Element(Spot {
            instance,
            element,
            own,
        })),
        None => Err(Unlinked::UnknownName(pos)),
    }
}

/// What stands behind the name of a component: the name of an element, or none.
pub fn of_member(
    app: &Lookup,
    member: usize,
    pos: Pos,
    name: &Option<Name>,
) -> Result<NamedEnd, Unlinked>
    ensures { result ≡ spec.of_member (app_of app.now) member pos name.now }
{
    match name {
        None => Ok(NamedEnd::Whole(member)),
        Some(name) => found(member, false, pos, element_named(app, member, name)),
    }
}

fn of_own(
    app: &Lookup,
    instance: usize,
    pos: Pos,
    first: &Name,
    second: &Option<Name>,
) -> Result<NamedEnd, Unlinked>
    ensures { result ≡ spec.of_own (app_of app.now) instance pos first.now second.now }
{
    match second {
        None => found(instance, true, pos, element_named(app, instance, first)),
        Some(_) => Err(Unlinked::UnknownName(pos)),
    }
}

/// What an end of a wire names, where these names stand for instances. Refuses, at the wire, a name with no declaration.
pub fn named(
    app: &Lookup,
    instance: usize,
    scope: &Places,
    pos: Pos,
    end: &WireEnd,
) -> Result<NamedEnd, Unlinked>
    ensures { result ≡ spec.named (app_of app.now) instance (place_of scope.now) pos end.now }
{
    match scope.get(&end.first) {
        Some(member) => of_member(app, member, pos, &end.second),
        None => of_own(app, instance, pos, &end.first, &end.second),
    }
}
