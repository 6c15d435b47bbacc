//! What the elements of an application are found in.

ghost use Rattle.std.specs.Prelude.{◌≡◌};
ghost use Rattle.wire_paths.specs.declared.wires.Way.TheVariants as way;
ghost use Rattle.wire_paths.specs.Wires.{wires_of};
ghost use Rattle.elab_application.specs.Ends.{sinks_of};

use crate::interfaces::Interfaces;
use crate::routes::{Routes, sinks_of};
use nm_base::{NoMemory, beside};
use std::alloc::Global;
use wire_instances::Made;
use wire_pairs::Pair;
use wire_paths::{Nets, Way};
use wire_units::Loaded;

/// The files, instances and pairs of an application, its interfaces by name, and its wires in both directions.
#[derive(Drop)]
pub struct Ground<'u, 'n> {
    pub units: &'u [Loaded],
    pub made: &'n [Made],
    pub pairs: &'n [Pair],
    pub interfaces: Interfaces<'u>,
    calls: Routes<'n>,
    signals: Routes<'n>,
    ghost here: { interfaces.units.now ≡ units.now },
    ghost along: { calls.net.now.wires.items ≡ wires_of way.Calls pairs.now },
    ghost ends: { calls.sinks.items ≡ sinks_of way.Calls units.now made.now },
    ghost back: { signals.net.now.wires.items ≡ wires_of way.Signals pairs.now },
    ghost ends_back: { signals.sinks.items ≡ sinks_of way.Signals units.now made.now },
}

impl<'u, 'n> Ground<'u, 'n> {
    ghost use Rattle.std.specs.Prelude.{◌≡◌, IfOk};
    ghost use Rattle.wire_paths.specs.declared.wires.Way.TheVariants as way;
    ghost use Rattle.wire_paths.specs.Wires.{wires_of};
    ghost use Rattle.elab_application.specs.Ends.{sinks_of, way_out};

    /// The ground of an application whose wires these are, in time linear in its instances and elements.
    pub fn new(
        alloc: Global,
        units: &'u [Loaded],
        made: &'n [Made],
        pairs: &'n [Pair],
        nets: &'n Nets,
    ) -> Result<Ground<'u, 'n>, NoMemory>
        requires calls { nets.now.calls.wires.items ≡ wires_of way.Calls pairs.now }
        requires signals { nets.now.signals.wires.items ≡ wires_of way.Signals pairs.now }
        ensures units { IfOk result (λ g. g.units.now ≡ units.now) }
        ensures made { IfOk result (λ g. g.made.now ≡ made.now) }
        ensures pairs { IfOk result (λ g. g.pairs.now ≡ pairs.now) }
    {
        let interfaces = Interfaces::new(alloc, units)?;
        let (interfaces, sinks) = beside(interfaces, sinks_of(alloc, Way::Calls, units, made))?;
        let calls = Routes {
            net: &nets.calls,
            sinks,
        };
        let back = sinks_of(alloc, Way::Signals, units, made);
        let ((interfaces, calls), sinks) = beside((interfaces, calls), back)?;
        let signals = Routes {
            net: &nets.signals,
            sinks,
        };
        Ok(Ground {
            units,
            made,
            pairs,
            interfaces,
            calls,
            signals,
        })
    }

    /// The wires along which an element calls or signals.
    pub fn out(&self, provides: bool) -> &Routes<'n>
        ensures wires { result.now.net.now.wires.items ≡ wires_of (way_out provides) self.now.pairs.now }
        ensures sinks { result.now.sinks.items ≡ sinks_of (way_out provides) self.now.units.now self.now.made.now }
    {
        if provides { &self.signals } else { &self.calls }
    }
}
