//! What the wires reach from the elements of an instance.

ghost use Rattle.std.specs.Prelude.{◌≡◌, map};
ghost use Rattle.std.specs.Option.{option_map};
ghost use Rattle.elab_targets.specs.View.{element_of, wired_of};
ghost use Rattle.unwired_items.specs.Modules as spec;

use elab_targets::{Element, Wired};
use item_targets::Reaches;
use wire_targets::End;

fn ends_with<'a>(named: &'a [Wired], others: &'a [End], value: u64) -> &'a [End]
    ensures { result.now ≡ spec.ends_with (map wired_of named.now) others.now value }
{
    let mut rest = named;
    while let Some((wired, more)) = rest.split_first() {
        if u64::from(wired.value) == value {
            return wired.ends.as_slice();
        }
        rest = more;
    }
    others
}

fn ends_at<'a>(x: &'a Element, value: Option<u64>) -> &'a [End]
    ensures { result.now ≡ spec.ends_at (element_of x.now) value }
{
    match value {
        None => x.others.as_slice(),
        Some(value) => ends_with(x.named.as_slice(), x.others.as_slice(), value),
    }
}

fn are_some(ends: &[End]) -> bool
    ensures { result ≡ spec.are_some ends.now }
{
    !ends.is_empty()
}

fn reaches_from(x: Option<&Element>, value: Option<u64>) -> bool
    ensures { result ≡ spec.reaches_from (option_map (λ e. element_of e.now) x.entry) value }
{
    match x {
        None => false,
        Some(x) => are_some(ends_at(x, value)),
    }
}

/// The elements of an instance, with the ends that its wires reach.
#[derive(Drop)]
pub struct Ends<'a, 'u> {
    pub elems: &'a [Element<'u>],
}

impl<'a, 'u> Reaches for Ends<'a, 'u> {
    ghost use Rattle.std.specs.Prelude.{map};
    ghost use Rattle.elab_targets.specs.View.{element_of};
    ghost use Rattle.unwired_items.specs.Modules.{reach_of};

    ghost reach = { λ ends. reach_of (map element_of ends.elems.now) };

    fn reaches(&self, element: usize, value: Option<u64>) -> bool {
        reaches_from(self.elems.get(element), value)
    }
}
