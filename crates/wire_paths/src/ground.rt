//! What paths run through.

ghost use Rattle.std.specs.Prelude.{◌≡◌};
ghost use Rattle.wire_paths.specs.declared.wires.Way.TheVariants as way;
ghost use Rattle.wire_paths.specs.Wires.{wires_of};

use crate::net::Net;
use wire_instances::Made;
use wire_pairs::{InstanceFacts, Pair};
use wire_units::Loaded;

/// The wires of an application in both directions.
#[derive(Drop)]
pub struct Nets {
    pub calls: Net,
    pub signals: Net,
}

/// An application, its pairs, and its wires in both directions.
#[derive(Drop)]
pub struct Ground<'a> {
    pub units: &'a [Loaded],
    pub made: &'a [Made],
    pub facts: &'a [InstanceFacts],
    pub pairs: &'a [Pair],
    pub nets: &'a Nets,
    ghost along: { nets.now.calls.wires.items ≡ wires_of way.Calls pairs.now },
    ghost back: { nets.now.signals.wires.items ≡ wires_of way.Signals pairs.now },
}
