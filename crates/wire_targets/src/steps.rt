//! Where one wire leads.

ghost use Rattle.std.specs.Prelude.{◌≡◌};
ghost use Rattle.wire_targets.specs.Paths.{along, begins, param_at};

use crate::end::{End, Wire};

fn passes(wire: &Wire, end: &End) -> bool
    ensures { result ≡ begins wire.now end.now }
{
    wire.from.instance == end.instance
        && wire.from.element == end.element
        && (wire.from.param.is_none() || wire.from.param == end.param)
}

fn param_at(wire: &Wire, end: &End) -> Option<u16>
    ensures { result ≡ param_at wire.now end.now }
{
    if wire.to.param.is_some() {
        wire.to.param
    } else if wire.from.param.is_some() {
        None
    } else {
        end.param
    }
}

/// The end that the wire leads to from this end.
pub fn along(wire: &Wire, end: &End) -> Option<End>
    ensures { result ≡ along wire.now end.now }
{
    if !passes(wire, end) {
        return None;
    }
    Some(End {
        instance: wire.to.instance,
        element: wire.to.element,
        param: param_at(wire, end),
    })
}
