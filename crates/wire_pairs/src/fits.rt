//! Which ends a wire joins.

ghost use Rattle.std.specs.Prelude.{◌≡◌, option_copied};
ghost use Rattle.wire_pairs.specs.Fits as spec;
ghost use Rattle.wire_pairs.specs.Lookup.{app_of};

use crate::ends::{NamedEnd, Sign, Spot};
use crate::facts::Unlinked;
use crate::lookup::Lookup;
use crate::seen::{args_at, elem_at, elems_at};
use nesc_tree::Elem;
use nm_base::Pos;

/// Whether calls come out of an element, inside the configuration.
pub fn leaves(own: bool, provides: bool) -> bool
    ensures { result ≡ spec.leaves own provides }
{
    if own { provides } else { !provides }
}

fn directed(sign: Sign, x: Spot, y: Spot, x_leaves: bool, y_leaves: bool) -> bool
    ensures { result ≡ spec.directed sign x y x_leaves y_leaves }
{
    match sign {
        Sign::Arrow => !x.own && !y.own && x_leaves && !y_leaves,
        Sign::Equals => (x.own || y.own) && (if x_leaves { !y_leaves } else { y_leaves }),
    }
}

fn elems_fit(app: &Lookup, sign: Sign, x: Spot, y: Spot, e: &Elem, f: &Elem) -> bool
    ensures { result ≡ spec.elems_fit (app_of app.now) sign x y e.now f.now }
{
    let x_leaves = leaves(x.own, e.provides);
    let y_leaves = leaves(y.own, f.provides);
    directed(sign, x, y, x_leaves, y_leaves)
        && e.iface == f.iface
        && args_at(app, x) == args_at(app, y)
}

fn fits(app: &Lookup, sign: Sign, x: Spot, y: Spot) -> bool
    ensures { result ≡ spec.fits (app_of app.now) sign x y }
{
    match (elem_at(app, x), elem_at(app, y)) {
        (Some(e), Some(f)) => elems_fit(app, sign, x, y, e, f),
        _ => false,
    }
}

fn member_spot(member: usize, element: usize) -> Spot
    ensures { result ≡ spec.member_spot member element }
{
    Spot {
        instance: member,
        element,
        own: false,
    }
}

fn member_fits(
    app: &Lookup,
    sign: Sign,
    other: Spot,
    other_first: bool,
    member: usize,
    element: usize,
) -> bool
    ensures { result ≡ spec.member_fits (app_of app.now) sign other other_first member element }
{
    if other_first {
        fits(app, sign, other, member_spot(member, element))
    } else {
        fits(app, sign, member_spot(member, element), other)
    }
}

// The one element of a component that fits the other end.
#[tactic(auto, using(crate::proofs::Steps::elements))]
fn only_place(
    app: &Lookup,
    sign: Sign,
    other: Spot,
    other_first: bool,
    member: usize,
) -> Option<usize>
    ensures { result ≡ spec.only_place (app_of app.now) sign other other_first member }
{
    let elems = elems_at(app, member);
    let mut found = None;
    let mut at = 0;
    while at < elems.len() {
        if member_fits(app, sign, other, other_first, member, at) {
            if found.is_some() {
                return None;
            }
            found = Some(at);
        }
        at += 1;
    }
    found
}

/// The two ends that a wire joins. Refuses, at the wire, ends of another direction, interface or type arguments, and a name that is
/// left out where not exactly one element fits.
pub fn joined(
    app: &Lookup,
    sign: Sign,
    pos: Pos,
    x: NamedEnd,
    y: NamedEnd,
) -> Result<(Spot, Spot), Unlinked>
    ensures { result ≡ spec.joined (app_of app.now) sign pos x y }
{
    let both = match (x, y) {
        (NamedEnd::Element(x), NamedEnd::Element(y)) => {
            if fits(app, sign, x, y) {
                Some((x, y))
            } else {
                None
            }
        }
        (NamedEnd::Element(x), NamedEnd::Whole(member)) => {
            match only_place(app, sign, x, true, member) {
                Some(element) => Some((x, member_spot(member, element))),
                None => None,
            }
        }
        (NamedEnd::Whole(member), NamedEnd::Element(y)) => {
            match only_place(app, sign, y, false, member) {
                Some(element) => Some((member_spot(member, element), y)),
                None => None,
            }
        }
        (NamedEnd::Whole(_), NamedEnd::Whole(_)) => None,
    };
    both.ok_or(Unlinked::WireMismatch(pos))
}
